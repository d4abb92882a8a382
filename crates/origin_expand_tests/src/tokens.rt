//! Texts with their tokens replaced.
use lib_types::{NoMemory, Text};
use origin_expand::expand;
use std::alloc::Global;
use table_rows::{Differences, Row, Trial, Words, divide, has_line, value};

/// A row has the replacements of the tokens, and `secure` for secure execution. Each line `text` is followed by the result, or by `-` if
/// the text is dropped.
pub(crate) struct Tokens;

fn expanded(alloc: Global, row: Row<'_>, text: &[u8]) -> Result<Option<Text>, NoMemory> {
    let origin = value(row, b"origin").unwrap_or(b"");
    let lib = value(row, b"lib").unwrap_or(b"");
    let platform = value(row, b"platform").unwrap_or(b"");
    let secure = has_line(row, b"secure");
    expand(alloc, text, origin, lib, platform, secure)
}

fn gives(
    alloc: Global,
    row: Row<'_>,
    text: &[u8],
    want: &[u8],
    differences: &mut Differences,
) -> Result<bool, NoMemory> {
    match expanded(alloc, row, text)? {
        Some(got) => differences.is_same(text, want, got.as_bytes()),
        None => differences.is_same(text, want, b"-"),
    }
}

const WORDS: &[Words] = &[&[b"origin", b"lib", b"platform", b"secure", b"text", b"gives"]];

impl Trial for Tokens {
    fn words() -> &'static [Words] {
        WORDS
    }

    fn is_right(
        alloc: Global,
        row: Row<'_>,
        differences: &mut Differences,
    ) -> Result<bool, NoMemory> {
        let mut is_right = true;
        let mut text: &[u8] = b"";
        for line in row {
            let (word, rest) = divide(b' ', *line);
            if word == b"text".as_slice() {
                text = rest;
            }
            if word == b"gives".as_slice() {
                is_right = gives(alloc, row, text, rest, differences)? && is_right;
            }
        }
        Ok(is_right)
    }
}
