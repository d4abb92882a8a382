//! A buffer before a sink, so that words aren't written one at a time.
ghost use Rattle.std.specs.Prelude.{◌≡◌, ◌+◌, ◌++◌, ◌≤◌, [], length, OnOk};
ghost use Rattle.cache_reader.specs.Buffers.{Puts};
ghost use Rattle.cache_reader.specs.declared.buffer.TheConstants.{SIZE};

use lib_types::Failed;
use std::marker::Model;
use tree_face::{Sink, put_all};

// The size of a buffer in bytes.
const SIZE: usize = 4096;

/// Bytes that are not yet written. Contracts see the list of them.
#[derive(Drop)]
pub struct Buffer {
    bytes: [u8; SIZE],
    len: usize,
}

impl Model for Buffer {
    ghost use Rattle.std.specs.Prelude.{ℕ, List, ◌≤◌, take};
    ghost use Rattle.cache_reader.specs.declared.buffer.TheConstants.{SIZE};

    ghost Value = { List ℕ };

    ghost view = { λ b. take b.len b.bytes };

    ghost invariant = { λ b. b.len ≤ SIZE };
}

impl Buffer {
    /// An empty buffer.
    pub fn new() -> Buffer
        ensures { result ≡ [] }
    {
        Buffer {
            bytes: [0; SIZE],
            len: 0,
        }
    }

    fn len(&self) -> usize
        ensures value { result ≡ length self.now }
        ensures small { result ≤ SIZE }
    {
        self.len
    }

    fn as_slice(&self) -> &[u8]
        ensures { result.now ≡ self.now }
    {
        &self.bytes[..self.len]
    }

    fn clear(&mut self)
        ensures { self.new ≡ [] }
    {
        self.len = 0;
    }

    // Appends a text. It must fit.
    fn push(&mut self, text: &[u8])
        requires { length self.old + length text.now ≤ SIZE }
        ensures { self.new ≡ self.old ++ text.now }
    {
        let end = self.len + text.len();
        self.bytes[self.len..end].copy_from_slice(text);
        self.len = end;
    }
}

/// Writes the buffered bytes.
pub fn flush<O: Sink>(sink: &mut O, buffer: &mut Buffer) -> Result<(), Failed>
    ensures puts { Puts [] buffer.old buffer.new (O.state sink.old) (O.state sink.new) result }
    ensures empty { OnOk result (buffer.new ≡ []) }
{
    put_all(sink, buffer.as_slice())?;
    buffer.clear();
    Ok(())
}

// Writes the buffered bytes, then the text.
fn put_through<O: Sink>(sink: &mut O, buffer: &mut Buffer, text: &[u8]) -> Result<(), Failed>
    ensures { Puts text.now buffer.old buffer.new (O.state sink.old) (O.state sink.new) result }
{
    flush(sink, buffer)?;
    put_all(sink, text)
}

/// Writes a text after the buffered bytes. The text may be buffered too.
pub fn put<O: Sink>(sink: &mut O, buffer: &mut Buffer, text: &[u8]) -> Result<(), Failed>
    ensures { Puts text.now buffer.old buffer.new (O.state sink.old) (O.state sink.new) result }
{
    if buffer.len() + text.len() > SIZE {
        return put_through(sink, buffer, text);
    }
    buffer.push(text);
    Ok(())
}

/// Writes three texts after the buffered bytes: a text, with another text before it and one after it.
pub fn put_between<O: Sink>(
    sink: &mut O,
    buffer: &mut Buffer,
    before: &[u8],
    text: &[u8],
    after: &[u8],
) -> Result<(), Failed>
    ensures { Puts (before.now ++ text.now ++ after.now) buffer.old buffer.new (O.state sink.old) (O.state sink.new) result }
{
    put(sink, buffer, before)?;
    put(sink, buffer, text)?;
    put(sink, buffer, after)
}
