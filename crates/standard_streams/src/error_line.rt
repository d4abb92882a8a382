//! The lines on the error output that say what failed.
ghost use Rattle.std.specs.Prelude.{◌≡◌, false, IfOk, string_bytes};
ghost use Rattle.standard_streams.specs.Shown.{shown};

use crate::escapes::shown;
use crate::streams::{Streams, write_text};
use std::io::{self, Error, ErrorKind};
use std::rt::Runtime;
use std::str::from_utf8;

/// The line in place of one that can't be made without memory.
pub const OUT_OF_MEMORY: &str = "ldconfig: out of memory\n";

/// Writes a line that says what failed: the file's name below the image, the call, and the reason; or only that memory is gone, if there is
/// none for that line. If no line can be written, nothing changes, because the status has its own line on the output.
pub fn write_error_line<R: Runtime + Streams>(rt: &R, name: &str, call: &str, error: io::Error) {
    let _ = or_out_of_memory(rt, try_line(rt, name, call, error));
}

/// Says that memory is gone, if a line couldn't be written because of that.
pub fn or_out_of_memory<R: Streams>(rt: &R, line: io::Result<()>) -> io::Result<()> {
    match line {
        Err(error) if error.kind() == ErrorKind::OutOfMemory => write_text(rt, OUT_OF_MEMORY),
        other => other,
    }
}

fn try_line<R: Runtime + Streams>(
    rt: &R,
    name: &str,
    call: &str,
    error: io::Error,
) -> io::Result<()> {
    let name = printable(rt, name)?;
    let text = format!(in rt.alloc(); "{error}")?;
    let reason = without_number(text.as_str());
    let line = format!(in rt.alloc(); "ldconfig: {name}: {call}{reason}\n")?;
    write_text(rt, line.as_str())
}

/// A name as it is shown in a line, so that it can't start a new line or steer a terminal.
pub fn printable<R: Runtime>(rt: &R, text: &str) -> io::Result<String<R::A>>
    ensures { IfOk result (λ shown_text. string_bytes shown_text ≡ shown false text.now) }
{
    printable_bytes(rt, text.as_bytes())
}

/// The same for bytes, which may not be UTF-8.
pub fn printable_bytes<R: Runtime>(rt: &R, bytes: &[u8]) -> io::Result<String<R::A>>
    ensures { IfOk result (λ text. string_bytes text ≡ shown false bytes.now) }
{
    let shown = shown(rt.alloc(), false, bytes)?;
    match from_utf8(&shown) {
        Ok(text) => Ok(String::from_str(rt.alloc(), text)?),
        Err(_) => Err(Error::from(ErrorKind::InvalidData)),
    }
}

// The system's text for an error, without the number that the library appends.
fn without_number(text: &str) -> &str {
    match text.split_once(" (os error ") {
        Some((reason, _)) => reason,
        None => text,
    }
}
