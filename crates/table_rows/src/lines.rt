//! The lines of a table and their values.
use lib_types::{NoMemory, Separator, Text, Texts, cut};
use std::alloc::Global;

/// The lines of a row after its head, without newlines.
pub type Row<'a> = &'a [&'a [u8]];

/// The text before the first such byte and the text after it. If there is none, the whole text and an empty one.
pub fn divide(byte: u8, text: &[u8]) -> (&[u8], &[u8]) {
    let (front, rest) = cut(Separator::Byte(byte), text);
    (front, rest.unwrap_or(b""))
}

/// The number that these digits represent.
pub fn number(digits: &[u8]) -> u64 {
    let mut number = 0u64;
    for digit in digits {
        let value = u64::from(digit.saturating_sub(b'0'));
        number = number.saturating_mul(10).saturating_add(value);
    }
    number
}

fn push_repeated(out: &mut Vec<u8>, times: u64, piece: &[u8]) -> Result<(), NoMemory> {
    for _ in 0..times {
        out.extend_from_slice(piece)?;
    }
    Ok(())
}

// Appends the expansion of a bracket with this text inside.
fn push_inside(out: &mut Vec<u8>, inside: &[u8]) -> Result<(), NoMemory> {
    let (front, piece) = divide(b' ', inside);
    if front.starts_with(b"#") {
        out.push((number(&front[1..]) % 256) as u8)?;
        return Ok(());
    }
    push_repeated(out, number(front), piece)
}

/// The text with each `<COUNT TEXT>` replaced by COUNT copies of TEXT, and each `<#NUMBER>` by the byte with this number.
pub(crate) fn expanded(alloc: Global, text: &[u8]) -> Result<Vec<u8>, NoMemory> {
    let mut out = Vec::new(alloc);
    let mut rest = text;
    for _ in 0..text.len() {
        if rest.is_empty() {
            break;
        }
        let (front, following) = divide(b'<', rest);
        let (inside, following) = divide(b'>', following);
        out.extend_from_slice(front)?;
        push_inside(&mut out, inside)?;
        rest = following;
    }
    Ok(out)
}

/// The lines, without newlines.
pub(crate) fn lines_of(alloc: Global, text: &[u8]) -> Result<Vec<&[u8]>, NoMemory> {
    let mut lines = Vec::new(alloc);
    let mut rest = text;
    for _ in 0..text.len() {
        if rest.is_empty() {
            break;
        }
        let (line, following) = divide(b'\n', rest);
        lines.push(line)?;
        rest = following;
    }
    Ok(lines)
}

/// The content of a text line, or `None` if it isn't one. A line that begins with `| ` is a line of the text, `|` is an empty line, and
/// a line that begins with `+ ` has no newline.
pub(crate) fn of_text(line: &[u8]) -> Option<&[u8]> {
    if line.starts_with(b"| ") || line.starts_with(b"+ ") {
        Some(&line[2..])
    } else if line == b"|".as_slice() {
        Some(b"")
    } else {
        None
    }
}

/// The text of the first lines, up to the first one that isn't a text line.
pub fn text_below(alloc: Global, lines: Row<'_>) -> Result<Vec<u8>, NoMemory> {
    let mut text = Vec::new(alloc);
    for line in lines {
        let Some(piece) = of_text(line) else {
            break;
        };
        text.extend_from_slice(piece)?;
        if line.starts_with(b"|") {
            text.push(b'\n')?;
        }
    }
    Ok(text)
}

/// The text below the first line that is this word. The text is empty if there is none.
pub fn text(alloc: Global, row: Row<'_>, word: &[u8]) -> Result<Vec<u8>, NoMemory> {
    for (index, line) in row.iter().enumerate() {
        if *line == word {
            return text_below(alloc, &row[index + 1..]);
        }
    }
    Ok(Vec::new(alloc))
}

/// The rest of the first line whose first word is this one.
pub fn value<'a>(row: Row<'a>, word: &[u8]) -> Option<&'a [u8]> {
    for line in row {
        let (first, rest) = divide(b' ', line);
        if first == word {
            return Some(rest);
        }
    }
    None
}

/// The number after the word in the first such line, or 0 if there is none.
pub fn count(row: Row<'_>, word: &[u8]) -> u64 {
    match value(row, word) {
        Some(digits) => number(digits),
        None => 0,
    }
}

/// Whether the first word of a line is this one.
pub fn has_line(row: Row<'_>, word: &[u8]) -> bool {
    value(row, word).is_some()
}

/// The text below this word, if the row has a line with the word.
pub fn optional_text(
    alloc: Global,
    row: Row<'_>,
    word: &[u8],
) -> Result<Option<Vec<u8>>, NoMemory> {
    match value(row, word) {
        Some(_) => Ok(Some(text(alloc, row, word)?)),
        None => Ok(None),
    }
}

/// The value of the first line with this word.
pub fn owned_value(alloc: Global, row: Row<'_>, word: &[u8]) -> Result<Option<Text>, NoMemory> {
    match value(row, word) {
        Some(value) => Ok(Some(Text::copy_of(alloc, value)?)),
        None => Ok(None),
    }
}

/// The values of all lines with this word.
pub fn values(alloc: Global, row: Row<'_>, word: &[u8]) -> Result<Texts, NoMemory> {
    let mut values = Texts::new(alloc);
    for line in row {
        let (first, rest) = divide(b' ', *line);
        if first == word {
            values.push(Text::copy_of(alloc, rest)?)?;
        }
    }
    Ok(values)
}

/// The number of the call that fails, from the line with this word. The list is empty if the row has no such line.
pub fn calls(alloc: Global, row: Row<'_>, word: &[u8]) -> Result<Vec<u64>, NoMemory> {
    let mut calls = Vec::new(alloc);
    if let Some(digits) = value(row, word) {
        calls.push(number(digits))?;
    }
    Ok(calls)
}

/// The lines before the first line whose first word is one of these words.
pub fn lines_before<'a>(words: &[&[u8]], lines: Row<'a>) -> Row<'a> {
    for (index, line) in lines.iter().enumerate() {
        if begins_with(words, line) {
            return &lines[..index];
        }
    }
    lines
}

/// Whether a line begins with one of these words.
pub(crate) fn begins_with(words: &[&[u8]], line: &[u8]) -> bool {
    let (first, _) = divide(b' ', line);
    for word in words {
        if *word == first {
            return true;
        }
    }
    false
}

/// The parts of a text between separator bytes, except empty ones.
pub fn list(alloc: Global, byte: u8, text: &[u8]) -> Result<Texts, NoMemory> {
    let mut list = Texts::new(alloc);
    let mut rest = text;
    for _ in 0..text.len() {
        let (part, after) = divide(byte, rest);
        if !part.is_empty() {
            list.push(Text::copy_of(alloc, part)?)?;
        }
        rest = after;
    }
    Ok(list)
}

/// The texts, one per line.
pub fn lines_in(alloc: Global, texts: &Texts) -> Result<Vec<u8>, NoMemory> {
    let mut lines = Vec::new(alloc);
    for text in texts.as_slice() {
        lines.extend_from_slice(text.as_bytes())?;
        lines.push(b'\n')?;
    }
    Ok(lines)
}
