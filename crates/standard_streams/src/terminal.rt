//! The standard output, if it is a terminal.
ghost use Rattle.std.specs.Prelude.{◌≡◌, ◌≤◌, IfOk, length};
ghost use Rattle.standard_streams.specs.Terminal.{is_terminal};

use crate::escapes::{escape, plain_run};
use crate::streams::Streams;
use crate::turns::write_some;
use std::fs;
use std::io::{self, Error, ErrorKind};
use std::rt::Runtime;

/// Whether the standard output is a terminal.
pub fn has_terminal<R: Runtime>(rt: &R) -> bool {
    match fs::read_link(rt, "/proc/self/fd/1") {
        Ok(path) => is_terminal(path.as_str()),
        Err(_) => false,
    }
}

// Whether a path is that of a terminal's device.
fn is_terminal(path: &str) -> bool
    ensures { result ≡ is_terminal path.now }
{
    path.starts_with("/dev/pts/") || path.starts_with("/dev/tty") || path == "/dev/console"
}

/// Writes some of the bytes to a terminal, with escapes in place of what could steer it, and returns how many of the bytes these were.
pub fn write_shown<R: Runtime + Streams>(rt: &R, bytes: &[u8]) -> io::Result<usize>
    ensures { IfOk result (λ n. n ≤ length bytes.now) }
{
    let run = plain_run(true, bytes);
    if run > 0 || bytes.is_empty() {
        write_whole(rt, &bytes[..run])?;
        return Ok(run);
    }
    write_whole(rt, &escape(bytes[0]))?;
    Ok(1)
}

fn write_whole<R: Runtime + Streams>(rt: &R, bytes: &[u8]) -> io::Result<()> {
    let mut rest = bytes;
    while !rest.is_empty() {
        let count = write_some(rt, rest)?;
        if count == 0 {
            return Err(Error::from(ErrorKind::WriteZero));
        }
        rest = &rest[count..];
    }
    Ok(())
}
