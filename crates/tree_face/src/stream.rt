//! Where input comes from, and where output goes.
ghost use Rattle.std.specs.Prelude.{◌≡◌};
ghost use Rattle.tree_face.specs.Stream.{SourceState, SinkState, ReadsAll, ReadsInput, Takes, TakesAll};
ghost use Rattle.tree_face.specs.declared.stream.ReadFault.TheVariants as read_faults;

use lib_types::Failed;
use std::alloc::{AllocError, AllocFailed, Global};

/// Bytes that are read from the front.
pub trait Source {
    ghost state: { Self → SourceState };

    /// Reads into the front of the buffer, and returns how many bytes were read: 0 only at the end, or for a buffer
    /// without room.
    fn read(&mut self, buf: &mut [u8]) -> Result<usize, Failed>
        ensures { ReadsInput (state self.old) (state self.new) buf.old buf.new result };
}

/// Bytes that are written.
pub trait Sink {
    ghost state: { Self → SinkState };

    /// Writes a prefix of the bytes, and returns its length: at least one byte of bytes that aren't empty.
    fn write(&mut self, bytes: &[u8]) -> Result<usize, Failed>
        ensures { Takes (state self.old) (state self.new) bytes.now result };
}

/// Writes all of the bytes. After an error a prefix of them was written.
pub fn put_all<O: Sink>(sink: &mut O, bytes: &[u8]) -> Result<(), Failed>
    ensures { TakesAll (O.state sink.old) (O.state sink.new) bytes.now result }
{
    let mut at = 0;
    while at < bytes.len() {
        at += sink.write(&bytes[at..])?;
    }
    Ok(())
}

/// Why an input wasn't read to its end.
#[derive(Clone, Copy, Debug, PartialEq, Eq)]
pub enum ReadFault {
    /// The input has more bytes than the limit. `taken` is the number of bytes that were read.
    TooLong { taken: u64 },
    /// The source failed.
    InputFault,
    NoMemory,
}

impl From<Failed> for ReadFault {
    ghost from_gives = { λ _ fault. fault ≡ read_faults.InputFault };

    fn from(_: Failed) -> Self {
        ReadFault::InputFault
    }
}

impl From<AllocError> for ReadFault {
    ghost from_gives = { λ _ fault. fault ≡ read_faults.NoMemory };

    fn from(_: AllocError) -> Self {
        ReadFault::NoMemory
    }
}

impl<T: Drop> From<AllocFailed<T>> for ReadFault {
    ghost from_gives = { λ _ fault. fault ≡ read_faults.NoMemory };

    fn from(_: AllocFailed<T>) -> Self {
        ReadFault::NoMemory
    }
}

const PIECE: usize = 4096;

/// Reads an input to its end if it has at most `limit` bytes. If it is longer, reads `limit + 1` bytes and fails.
#[tactic(auto, using(crate::proofs::Streams::read_on))]
pub fn read_all<I: Source>(
    alloc: Global,
    source: &mut I,
    limit: usize,
) -> Result<Vec<u8>, ReadFault>
    ensures { ReadsAll limit (I.state source.old) (I.state source.new) result }
{
    let mut bytes = Vec::new(alloc);
    let mut piece = [0; PIECE];
    while bytes.len() <= limit {
        // If there is a byte past the limit, the input is too long.
        let room = (limit - bytes.len()).min(PIECE - 1) + 1;
        let count = source.read(&mut piece[..room])?;
        if count == 0 {
            return Ok(bytes);
        }
        bytes.extend_from_slice(&piece[..count])?;
    }
    Err(ReadFault::TooLong {
        taken: bytes.len() as u64,
    })
}
