//! One row: arguments, and the command that they name.
use crate::shown::shown;
use lib_types::NoMemory;
use root_words::{command_of, is_root_command};
use std::alloc::Global;
use std::str::from_utf8;
use table_rows::{Differences, Row, Trial, Words, divide, text};

/// A row has a line for each argument. It has the command with its values, or `other` for a command of another kind, or the fault.
pub(crate) struct Arguments;

// The lines of a text.
fn words_of(alloc: Global, text: &[u8]) -> Result<Vec<String>, NoMemory> {
    let mut words = Vec::new(alloc);
    let mut rest = text;
    for _ in 0..text.len() {
        if rest.is_empty() {
            break;
        }
        let (word, after) = divide(b'\n', rest);
        words.push(String::from_str(alloc, from_utf8(word).unwrap_or("?"))?)?;
        rest = after;
    }
    Ok(words)
}

// The command or the fault of the arguments, as text.
fn answer(alloc: Global, words: &[String]) -> Result<Vec<u8>, NoMemory> {
    if is_root_command(words) {
        shown(alloc, command_of(alloc, words))
    } else {
        Ok(Vec::from_slice(alloc, b"other\n")?)
    }
}

const WORDS: &[Words] = &[&[b"arguments", b"command"]];

impl Trial for Arguments {
    fn words() -> &'static [Words] {
        WORDS
    }

    // A body that always returns NoMemory meets the contract, but not the rows.
    fn is_right(
        alloc: Global,
        row: Row<'_>,
        differences: &mut Differences,
    ) -> Result<bool, NoMemory> {
        let words = words_of(alloc, &text(alloc, row, b"arguments")?)?;
        let got = answer(alloc, words.as_slice())?;
        differences.is_text(alloc, row, b"command", &got)
    }
}
