//! The parts of a text between separators.
ghost use Rattle.std.specs.Prelude.{◌≡◌, ◌<◌, ◌∷◌, ◌+◌, drop, length, position, IfSome};
ghost use Rattle.std.specs.List.{before_first, slice_split};
ghost use Rattle.std.specs.Option.{option_copied};
ghost use Rattle.lib_types.specs.Bytes.{is_byte};
ghost use Rattle.lib_types.specs.Splits.{separates, parts_of};

use crate::find::{find_byte, find_either};
use crate::trim::first_in;
use std::marker::Model;

/// The byte that separates two parts.
#[derive(Clone, Copy)]
pub enum Separator<'a> {
    /// A space or a tab.
    Blank,
    Byte(u8),
    /// One byte of a set.
    In(&'a [u8]),
}

#[inline(always)]
fn first_separator(separator: Separator<'_>, bytes: &[u8]) -> Option<usize>
    ensures index { result ≡ position (separates separator.entry) bytes.now }
    ensures within { IfSome result (λ n. n < length bytes.now) }
{
    match separator {
        Separator::Blank => find_either(b' ', b'\t', bytes),
        Separator::Byte(byte) => find_byte(byte, bytes),
        Separator::In(set) => first_in(set, bytes),
    }
}

/// The first part, and the bytes after the separator that ends it, if there is one.
#[inline(always)]
#[tactic(auto, using(crate::proofs::Parting::cut_at, crate::proofs::Parting::cut_not_found, crate::proofs::Parting::rest_is))]
pub fn cut<'a>(separator: Separator<'_>, bytes: &'a [u8]) -> (&'a [u8], Option<&'a [u8]>)
    ensures parts { slice_split (separates separator.entry) bytes.now ≡ result.0.now ∷ parts_of (separates separator.entry) (option_copied result.1) }
    ensures after { IfSome result.1 (λ rest. rest.now ≡ drop (length result.0.now + 1) bytes.now) }
    ensures shorter { IfSome result.1 (λ rest. length rest.now < length bytes.now) }
{
    match first_separator(separator, bytes) {
        Some(n) => (&bytes[..n], Some(&bytes[n + 1..])),
        None => (bytes, None),
    }
}

/// The bytes before the first one that equals `byte`, or all bytes if none does.
#[tactic(auto, using(crate::proofs::Ends::before_position, crate::proofs::Ends::before_none))]
pub fn before_byte(byte: u8, bytes: &[u8]) -> &[u8]
    ensures { result.now ≡ before_first (is_byte byte) bytes.now }
{
    match find_byte(byte, bytes) {
        Some(n) => &bytes[..n],
        None => bytes,
    }
}

/// An iterator over the parts, including empty ones. In contracts it is the list of the remaining parts.
#[derive(Drop)]
pub struct Parts<'a> {
    separator: Separator<'a>,
    rest: Option<&'a [u8]>,
}

impl<'a> Model for Parts<'a> {
    ghost use Rattle.std.specs.Prelude.{ℕ, List};
    ghost use Rattle.std.specs.Option.{option_copied};
    ghost use Rattle.lib_types.specs.Splits.{separates, parts_of};

    ghost Value = { List (List ℕ) };

    ghost view = { λ s. parts_of (separates s.separator) (option_copied s.rest) };
}

impl<'a> Iterator for Parts<'a> {
    ghost use Rattle.std.specs.Iterator.{YieldsFirstRef, item_count};

    type Item = &'a [u8];

    ghost next_gives = { YieldsFirstRef (λ s. s) };

    ghost remaining = { item_count (λ s. s) };

    // Splitting lines into words is much of the cost of reading a manifest. Therefore this is inlined into the caller's loop.
    #[inline(always)]
    fn next(&mut self) -> Option<&'a [u8]> {
        let rest = self.rest?;
        let (part, following) = cut(self.separator, rest);
        self.rest = following;
        Some(part)
    }
}

/// The parts of some bytes.
pub fn split<'a>(separator: Separator<'a>, bytes: &'a [u8]) -> Parts<'a>
    ensures { result ≡ slice_split (separates separator.entry) bytes.now }
{
    Parts {
        separator,
        rest: Some(bytes),
    }
}
