//! What `clap` says of arguments that it rejects.
use clap::Error;
use lib_types::{NoMemory, Text, before_byte};
use std::alloc::Global;

/// The first line of the text of an error, without the word `error`. It names the argument.
pub fn refusal_line(alloc: Global, error: &Error) -> Result<Text, NoMemory> {
    let text = format!(in alloc; "{error}")?;
    let line = before_byte(b'\n', text.as_bytes());
    let front = b"error: ";
    if line.starts_with(front) {
        Text::copy_of(alloc, &line[front.len()..])
    } else {
        Text::copy_of(alloc, line)
    }
}
