//! Standard input and output.
ghost use Rattle.std.specs.Prelude.{◌≡◌, ◌≤◌, IfOk, length};
ghost use Rattle.tree_real.specs.Unknown.{unknown_source, unknown_sink};

use crate::counts::one_more;
use crate::script_end::ScriptEnd;
use lib_types::Failed;
use standard_streams::{
    Streams, has_terminal, read_some, write_error_line, write_shown, write_some,
};
use std::io::{self, Error, ErrorKind};
use std::rt::Runtime;
use tree_face::{Sink, Source};

// The most bytes of the input that are kept for messages about its lines.
const KEPT_MAX: usize = 1 << 20;

/// The standard input. Its first 2^20 bytes are kept for messages.
#[derive(Drop)]
pub struct StdinSource<R: Runtime> {
    rt: R,
    reader: R::Reader,
    end: ScriptEnd,
    kept: Vec<u8, R::A>,
    // How many more bytes may be kept.
    room: usize,
    faults: u64,
}

/// The standard output. On a terminal, what could steer it is escaped.
#[derive(Drop)]
pub struct StdoutSink<R: Runtime> {
    rt: R,
    is_terminal: bool,
    faults: u64,
}

impl<R: Runtime> StdinSource<R> {
    /// The standard input, with no faults so far.
    pub fn new(rt: R) -> StdinSource<R>
        ensures { result.faults ≡ 0 }
    {
        let reader = rt.reader();
        let kept = Vec::new(rt.alloc());
        StdinSource {
            rt,
            reader,
            end: ScriptEnd::new(),
            kept,
            room: KEPT_MAX,
            faults: 0,
        }
    }

    /// Whether what was read so far is a script that ends in edits: no `update` comes after the last `put` or `drop`.
    pub fn ends_in_edits(&self) -> bool {
        self.end.is_edit()
    }

    /// A line of the input, counted from 1, without its newline. None if the input has no such line, or it isn't among the bytes that are
    /// kept.
    pub fn line(&self, number: u64) -> Option<&[u8]> {
        let at = usize::try_from(number.saturating_sub(1)).unwrap_or(usize::MAX);
        let mut lines = self.kept.split(|b| *b == b'\n');
        let line = lines.nth(at)?;
        if self.room == 0 && lines.next().is_none() {
            // The end of this line may not be kept.
            return None;
        }
        Some(line)
    }

    // Keeps these bytes, which follow those that are kept. If memory for them is refused, no more are kept.
    fn keep(&mut self, bytes: &[u8])
        ensures { self.new.faults ≡ self.old.faults }
    {
        let count = bytes.len().min(self.room);
        self.room = match self.kept.extend_from_slice(&bytes[..count]) {
            Ok(()) => self.room - count,
            Err(_) => 0,
        };
    }
}

impl<R: Runtime> StdoutSink<R> {
    /// The standard output, with no faults so far.
    pub fn new(rt: R) -> StdoutSink<R>
        ensures { result.faults ≡ 0 }
    {
        let is_terminal = has_terminal(&rt);
        StdoutSink {
            rt,
            is_terminal,
            faults: 0,
        }
    }
}

impl<R: Runtime + Streams> StdoutSink<R> {
    // Writes some of the bytes, and returns how many.
    fn write_bytes(&self, bytes: &[u8]) -> io::Result<usize>
        ensures { IfOk result (λ n. n ≤ length bytes.now) }
    {
        if self.is_terminal {
            write_shown(&self.rt, bytes)
        } else {
            write_some(&self.rt, bytes)
        }
    }
}

impl<R: Runtime + Streams> Source for StdinSource<R> {
    ghost state = { λ s. unknown_source s.faults };

    fn read(&mut self, buf: &mut [u8]) -> Result<usize, Failed> {
        match read_some(&self.rt, &mut self.reader, buf) {
            Ok(count) => {
                self.end = self.end.after(&buf[..count]);
                self.keep(&buf[..count]);
                Ok(count)
            }
            Err(error) => {
                write_error_line(&self.rt, "standard input", "", error);
                self.faults = one_more(self.faults);
                Err(Failed)
            }
        }
    }
}

impl<R: Runtime + Streams> Sink for StdoutSink<R> {
    ghost state = { λ s. unknown_sink s.faults };

    fn write(&mut self, bytes: &[u8]) -> Result<usize, Failed> {
        let error = match self.write_bytes(bytes) {
            Ok(count) if count > 0 || bytes.is_empty() => return Ok(count),
            Ok(_) => Error::from(ErrorKind::WriteZero),
            Err(error) => error,
        };
        write_error_line(&self.rt, "standard output", "", error);
        self.faults = one_more(self.faults);
        Err(Failed)
    }
}
