//! Writing to the standard streams, without raising SIGXFSZ.
ghost use Rattle.std.specs.Prelude.{◌≤◌, IfOk, length};

use crate::limits::file_limit;
use device_rules::{has_room, is_for_now, too_long};
use std::fs;
use std::io::{self, Error, ErrorKind, Write};

/// The standard output and the error output. If a file would become longer than the program may make one, the call fails with
/// `FileTooLarge` and raises no signal. If SIGPIPE is ignored and nobody reads a pipe any more, the call fails with `BrokenPipe`.
pub trait Streams {
    /// Writes some of the bytes to the standard output, and returns how many.
    fn write_output(&self, bytes: &[u8]) -> io::Result<usize>
        ensures { IfOk result (λ n. n ≤ length bytes.now) };

    /// Writes some of the bytes to the error output, and returns how many.
    fn write_error(&self, bytes: &[u8]) -> io::Result<usize>
        ensures { IfOk result (λ n. n ≤ length bytes.now) };
}

impl Streams for HostRuntime {
    fn write_output(&self, bytes: &[u8]) -> io::Result<usize> {
        require_room(self, "/proc/self/fd/1", bytes)?;
        self.stdout().write(bytes)
    }

    fn write_error(&self, bytes: &[u8]) -> io::Result<usize> {
        require_room(self, "/proc/self/fd/2", bytes)?;
        self.stderr().write(bytes)
    }
}

// If a stream is a file, it can't grow past the limit.
fn require_room(rt: &HostRuntime, path: &str, bytes: &[u8]) -> io::Result<()> {
    match fs::metadata(rt, path) {
        Ok(found) if found.is_file() => {
            if has_room(file_limit(rt), found.len(), bytes.len()) {
                Ok(())
            } else {
                Err(too_long())
            }
        }
        _ => Ok(()),
    }
}

// The most calls for one text.
const MOST_CALLS: usize = 100;

/// Writes a text to the error output.
pub fn write_text<R: Streams>(rt: &R, text: &str) -> io::Result<()> {
    let mut rest = text.as_bytes();
    for _ in 0..MOST_CALLS {
        match rt.write_error(rest) {
            Ok(count) => rest = rest.get(count..).unwrap_or(&[]),
            Err(error) if is_for_now(error.kind()) => {}
            Err(error) => return Err(error),
        }
        if rest.is_empty() {
            return Ok(());
        }
    }
    Err(Error::from(ErrorKind::TimedOut))
}
