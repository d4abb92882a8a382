//! Decoding the escapes in words.
ghost use Rattle.std.specs.Prelude.{◌≡◌, ◌==◌, ◌<◌, length, Some, None, IfOk, IfSome, MatchOption};
ghost use Rattle.std.specs.List.{list_any};
ghost use Rattle.manifest_words.specs.Escape.{letter, octal, is_octal, backslash, decoded};
ghost use Rattle.manifest_words.specs.Decoding.{octal_at, escape_at, first_byte, Decodes};

use lib_types::{NoMemory, has_byte};

// The byte that a backslash and this letter represent.
fn letter(c: u8) -> Option<u8>
    ensures { result ≡ letter c }
{
    match c {
        b's' => Some(b' '),
        b't' => Some(b'\t'),
        b'n' => Some(b'\n'),
        b'\\' => Some(b'\\'),
        b'#' => Some(b'#'),
        _ => None,
    }
}

fn is_octal(c: u8) -> bool
    ensures { result ≡ is_octal c }
{
    b'0' <= c && c <= b'7'
}

// The byte that a backslash and these three octal digits represent.
fn octal(a: u8, b: u8, c: u8) -> Option<u8>
    ensures { result ≡ octal a b c }
{
    if !(is_octal(a) && is_octal(b) && is_octal(c)) {
        return None;
    }
    let value = 64 * u16::from(a - b'0') + 8 * u16::from(b - b'0') + u16::from(c - b'0');
    if 1 <= value && value <= 255 {
        Some(value as u8)
    } else {
        None
    }
}

// The byte of the three octal digits at the front, and the rest after them.
fn octal_at(rest: &[u8]) -> Option<(u8, &[u8])>
    ensures { MatchOption result (octal_at rest.now ≡ None) (λ r. octal_at rest.now ≡ Some (r.0, r.1.now)) }
{
    if rest.len() < 3 {
        return None;
    }
    match octal(rest[0], rest[1], rest[2]) {
        Some(byte) => Some((byte, &rest[3..])),
        None => None,
    }
}

// The byte of the escape after a backslash, and the rest after the escape.
fn escape_at(rest: &[u8]) -> Option<(u8, &[u8])>
    ensures { MatchOption result (escape_at rest.now ≡ None) (λ r. escape_at rest.now ≡ Some (r.0, r.1.now)) }
{
    if rest.is_empty() {
        return None;
    }
    match letter(rest[0]) {
        Some(byte) => Some((byte, &rest[1..])),
        None => octal_at(rest),
    }
}

// The first byte that a word represents, and the rest of the word after it.
fn first_byte(word: &[u8]) -> Option<(u8, &[u8])>
    ensures exact { MatchOption result (first_byte word.now ≡ None) (λ r. first_byte word.now ≡ Some (r.0, r.1.now)) }
    ensures shorter { IfSome result (λ r. length r.1.now < length word.now) }
{
    if word.is_empty() {
        return None;
    }
    if word[0] == b'\\' {
        return escape_at(&word[1..]);
    }
    Some((word[0], &word[1..]))
}

// Decodes a word byte by byte.
#[tactic(auto, using(crate::proofs::Decoded::after_step, crate::proofs::Decoded::all_decoded, crate::proofs::Decoded::not_decoded))]
fn decode_bytes(out: &mut Vec<u8>, word: &[u8]) -> Result<bool, NoMemory>
    ensures { IfOk result (λ good. Decodes out.old.items out.new.items (decoded word.now) good) }
{
    let mut rest = word;
    while !rest.is_empty() {
        let Some((byte, following)) = first_byte(rest) else {
            return Ok(false);
        };
        out.push(byte)?;
        rest = following;
    }
    Ok(true)
}

/// Whether the word has a backslash, and so may have an escape.
pub fn has_backslash(word: &[u8]) -> bool
    ensures { result ≡ list_any (λ b. b == backslash) word.now }
{
    has_byte(b'\\', word)
}

/// Appends the bytes that a word represents. Returns false if a backslash doesn't begin an escape.
#[tactic(auto, using(crate::proofs::Decoded::plain_decoded))]
pub fn decode(out: &mut Vec<u8>, word: &[u8]) -> Result<bool, NoMemory>
    ensures { IfOk result (λ good. Decodes out.old.items out.new.items (decoded word.now) good) }
{
    if has_backslash(word) {
        return decode_bytes(out, word);
    }
    out.extend_from_slice(word)?;
    Ok(true)
}
