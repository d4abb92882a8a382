//! The line on the error output about arguments that are not a command.
use command_words::WordsFault;
use standard_streams::{Streams, printable, write_text};
use std::io;
use std::rt::Runtime;
use std::str::from_utf8;

/// Names the argument that is rejected. `first` is the first argument.
pub fn note_words<R: Runtime + Streams>(
    rt: &R,
    first: Option<&String>,
    fault: &WordsFault,
) -> io::Result<()> {
    match fault {
        WordsFault::NoCommand => note_no_command(rt, first),
        WordsFault::Refused(line) => say(rt, from_utf8(line.as_bytes()).unwrap_or("").trim_end()),
        WordsFault::Value(text) => say(rt, text),
        WordsFault::NoMemory => Ok(()),
    }
}

fn note_no_command<R: Runtime + Streams>(rt: &R, first: Option<&String>) -> io::Result<()> {
    let Some(word) = first else {
        return Ok(());
    };
    let word = printable(rt, word.as_str())?;
    let line = format!(in rt.alloc(); "ldconfig: {word}: not a command: use one of those below\n")?;
    write_text(rt, line.as_str())
}

fn say<R: Runtime + Streams>(rt: &R, text: &str) -> io::Result<()> {
    let text = printable(rt, text)?;
    let line = format!(in rt.alloc(); "ldconfig: {text}\n")?;
    write_text(rt, line.as_str())
}
