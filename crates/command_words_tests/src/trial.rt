//! One row: arguments, and the command that they name.
use crate::shown::{shown, shown_help};
use command_words::{help_of, line_of};
use lib_types::NoMemory;
use std::alloc::Global;
use std::str::from_utf8;
use table_rows::{Differences, Row, Trial, Words, divide, has_line, text};

/// A row has a line for each argument. It has the command with its values, or `Usage`. Or it has the command whose usage the arguments ask
/// for, or `none`.
pub(crate) struct Arguments;

// The lines of a text.
fn words_of(alloc: Global, text: &[u8]) -> Result<Vec<String>, NoMemory> {
    let mut words = Vec::new(alloc);
    let mut rest = text;
    for _ in 0..text.len() {
        if rest.is_empty() {
            break;
        }
        let (word, following) = divide(b'\n', rest);
        words.push(String::from_str(alloc, from_utf8(word).unwrap_or("?"))?)?;
        rest = following;
    }
    Ok(words)
}

const WORDS: &[Words] = &[&[b"arguments", b"command", b"help"]];

impl Trial for Arguments {
    fn words() -> &'static [Words] {
        WORDS
    }

    // A body that always returns NoMemory meets the contract, but not the rows.
    fn is_right(
        alloc: Global,
        row: Row<'_>,
        differences: &mut Differences,
    ) -> Result<bool, NoMemory> {
        let words = words_of(alloc, &text(alloc, row, b"arguments")?)?;
        if has_line(row, b"help") {
            let got = shown_help(alloc, help_of(&words))?;
            return differences.is_text(alloc, row, b"help", &got);
        }
        let got = shown(alloc, line_of(alloc, &words))?;
        differences.is_text(alloc, row, b"command", &got)
    }
}
