//! One row: a line and its meaning.
use crate::shown::shown;
use lib_types::NoMemory;
use script_lines::read_line;
use std::alloc::Global;
use table_rows::{Differences, Row, Trial, Words, text};

/// A row has a line, with its line feed, and its meaning or its fault.
pub(crate) struct Lines;

// The text without its last byte, the line feed.
fn line_of(text: &[u8]) -> &[u8] {
    if text.is_empty() {
        text
    } else {
        &text[..text.len() - 1]
    }
}

const WORDS: &[Words] = &[&[b"line", b"asks"]];

impl Trial for Lines {
    fn words() -> &'static [Words] {
        WORDS
    }

    // A body that always returns NoMemory meets the contract, but not the rows.
    fn is_right(
        alloc: Global,
        row: Row<'_>,
        differences: &mut Differences,
    ) -> Result<bool, NoMemory> {
        let line = text(alloc, row, b"line")?;
        let got = shown(alloc, read_line(alloc, line_of(&line)))?;
        differences.is_text(alloc, row, b"asks", &got)
    }
}
