//! Texts with escapes in place of what could steer a terminal.
ghost use Rattle.std.specs.Prelude.{◌≡◌, ◌<◌, ◌≤◌, ◌+◌, ◌++◌, IfOk, bit_and, drop, length, take};
ghost use Rattle.std.specs.Char.{is_control};
ghost use Rattle.std.specs.Str.{continuation_len};
ghost use Rattle.std.specs.Int.{is_in_range};
ghost use Rattle.standard_streams.specs.Shown.{code_of, escape_of, first_char, is_invisible, is_plain, plain_len, shown};

use lib_types::is_utf8;
use std::alloc::{AllocError, Allocator};

fn is_control(c: u32) -> bool
    ensures { result ≡ is_control c }
{
    c <= 0x1F || (0x7F <= c && c <= 0x9F)
}

fn is_in(low: u32, high: u32, c: u32) -> bool
    ensures { result ≡ is_in_range low high c }
{
    low <= c && c <= high
}

// Whether a character can't be seen: it changes the direction of text, for example.
fn is_invisible(c: u32) -> bool
    ensures { result ≡ is_invisible c }
{
    c == 0x061C
        || is_in(0x200B, 0x200F, c)
        || is_in(0x2028, 0x202E, c)
        || is_in(0x2060, 0x206F, c)
        || c == 0xFEFF
        || is_in(0xFFF9, 0xFFFB, c)
        || is_in(0xE0000, 0xE007F, c)
}

// Whether a character is shown as it is. Line feeds and tabs are, if the text consists of lines.
fn is_plain(in_lines: bool, c: u32) -> bool
    ensures { result ≡ is_plain in_lines c }
{
    !(is_control(c) || is_invisible(c)) || (in_lines && (c == 9 || c == 10))
}

// The low bits of a byte that isn't the first one of its character.
fn low(byte: u8) -> u32
    ensures { result ≡ bit_and byte 0x3F }
{
    u32::from(byte & 0x3F)
}

// The code of a character, from its bytes in UTF-8.
fn code_of(char: &[u8]) -> u32
    ensures { result ≡ code_of char.now }
{
    if char.len() == 1 {
        u32::from(char[0])
    } else if char.len() == 2 {
        u32::from(char[0] & 0x1F) * 64 + low(char[1])
    } else if char.len() == 3 {
        (u32::from(char[0] & 0x0F) * 64 + low(char[1])) * 64 + low(char[2])
    } else if char.len() == 4 {
        ((u32::from(char[0] & 0x07) * 64 + low(char[1])) * 64 + low(char[2])) * 64 + low(char[3])
    } else {
        0
    }
}

// The number of bytes of a character, from its first byte.
fn char_len(first: u8) -> usize
    ensures { result ≡ continuation_len first + 1 }
{
    if first < 128 {
        1
    } else if first < 224 {
        2
    } else if first < 240 {
        3
    } else {
        4
    }
}

// The bytes of the first character, if they are all there.
#[tactic(auto, using(crate::proofs::Runs::front))]
fn first_char(text: &[u8]) -> &[u8]
    requires { 0 < length text.now }
    ensures { result.now ≡ first_char text.now }
{
    let len = char_len(text[0]).min(text.len());
    &text[..len]
}

// The number of bytes of the first character, if it is shown as it is.
#[tactic(auto, using(crate::proofs::Runs::first_within), unfolding(crate::specs::Shown::plain_len))]
fn plain_len(in_lines: bool, text: &[u8]) -> usize
    requires { 0 < length text.now }
    ensures value { result ≡ plain_len in_lines text.now }
    ensures within { result ≤ length text.now }
{
    let first = first_char(text);
    if is_utf8(first) && is_plain(in_lines, code_of(first)) {
        first.len()
    } else {
        0
    }
}

/// The number of bytes up to the first one that is escaped.
#[tactic(auto, using(crate::proofs::Runs::run_goes_on))]
pub fn plain_run(in_lines: bool, text: &[u8]) -> usize
    ensures within { result ≤ length text.now }
    ensures shown { shown in_lines text.now ≡ take result text.now ++ shown in_lines (drop result text.now) }
    ensures escaped { result < length text.now → plain_len in_lines (drop result text.now) ≡ 0 }
{
    let mut at = 0;
    while at < text.len() {
        let count = plain_len(in_lines, &text[at..]);
        if count == 0 {
            return at;
        }
        at += count;
    }
    at
}

/// A byte as it is shown if it isn't one of a plain character: a backslash and three octal digits.
pub fn escape(byte: u8) -> [u8; 4]
    ensures { result ≡ escape_of byte }
{
    [
        b'\\',
        b'0' + byte / 64,
        b'0' + byte / 8 % 8,
        b'0' + byte % 8,
    ]
}

/// The text as it is shown. Line feeds and tabs stay, if it consists of lines.
#[tactic(auto, using(crate::proofs::Runs::shown_laws))]
pub fn shown<A: Allocator>(alloc: A, in_lines: bool, text: &[u8]) -> Result<Vec<u8, A>, AllocError>
    ensures { IfOk result (λ bytes. bytes.items ≡ shown in_lines text.now) }
{
    let mut bytes = Vec::new(alloc);
    let mut rest = text;
    while !rest.is_empty() {
        let run = plain_run(in_lines, rest);
        bytes.extend_from_slice(&rest[..run])?;
        rest = &rest[run..];
        if !rest.is_empty() {
            bytes.extend_from_slice(&escape(rest[0]))?;
            rest = &rest[1..];
        }
    }
    Ok(bytes)
}
