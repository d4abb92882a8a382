//! The lines below a file.
use table_rows::{Row, Words, divide, lines_before, number, value};

// The words of files.
const HEADS: Words = &[
    b"library",
    b"nameless",
    b"program",
    b"static",
    b"file",
    b"aux",
    b"records",
    b"new-records",
];

/// The lines of a file: those before the next file.
pub(crate) fn own_lines<'a>(lines: Row<'a>) -> Row<'a> {
    lines_before(HEADS, lines)
}

fn put_bytes(bytes: &mut Vec<u8>, changes: &[u8]) {
    let mut rest = changes;
    for _ in 0..changes.len() {
        let (at, after) = divide(b' ', rest);
        let (byte, after) = divide(b' ', after);
        let at = number(at) as usize;
        if at < bytes.len() && !byte.is_empty() {
            bytes[at] = (number(byte) % 256) as u8;
        }
        rest = after;
    }
}

/// Changes a file as its lines say. `changed AT BYTE ..` has offsets, each with the new byte. `cut SIZE` has the number of bytes that
/// remain.
pub(crate) fn change(bytes: &mut Vec<u8>, lines: Row<'_>) {
    put_bytes(bytes, value(lines, b"changed").unwrap_or(b""));
    if let Some(size) = value(lines, b"cut") {
        bytes.truncate(number(size) as usize);
    }
}
