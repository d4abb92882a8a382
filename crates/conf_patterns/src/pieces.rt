//! The parts of a pattern.
ghost use Rattle.std.specs.Prelude.{◌≡◌, ◌∷◌, ◌<◌, ◌≤◌, ◌^◌, [], false, length, IsTrue, MatchOption};
ghost use Rattle.conf_patterns.specs.Glob.{is_star, more_of, part_at, parts, takes};
ghost use Rattle.conf_patterns.specs.Pieces.{has_close, part_in, takes_first};

use crate::set::{is_in_set, set_len, unclosed_len};
use lib_types::trim::after;
use std::marker::Model;

/// One part of a pattern.
#[derive(Clone, Copy)]
pub(crate) enum Piece<'p> {
    Star,
    One,
    Byte(u8),
    /// The bytes between the brackets
    Set(&'p [u8]),
}

/// The rest of a pattern. Contracts see it as the list of its parts.
#[derive(Drop)]
pub(crate) struct Pieces<'p> {
    rest: &'p [u8],
    // The last `unclosed` bytes of the pattern contain no `]`. So a `[` among them opens no set, and no search is needed.
    unclosed: usize,
}

impl<'p> Model for Pieces<'p> {
    ghost use Rattle.std.specs.Prelude.{◌≡◌, List, false};
    ghost use Rattle.conf_patterns.specs.Glob.{Part, parts};
    ghost use Rattle.conf_patterns.specs.Pieces.{has_close};

    ghost Value = { List Part };

    ghost view = { λ s. parts s.rest.now };

    ghost invariant = { λ s. has_close s.unclosed s.rest.now ≡ false };
}

// The part that begins with this byte.
fn piece_at<'p>(b: u8, following: &'p [u8], unclosed: usize) -> Piece<'p>
    requires { has_close unclosed following.now ≡ false }
    ensures part { part_in result ≡ part_at b following.now }
    ensures within { more_of (part_in result) ≤ length following.now }
{
    match b {
        b'*' => Piece::Star,
        b'?' => Piece::One,
        b'[' => match set_len(following, unclosed) {
            Some(n) => Piece::Set(&following[..n]),
            None => Piece::Byte(b),
        },
        _ => Piece::Byte(b),
    }
}

fn more_of(piece: Piece<'_>) -> usize
    requires { more_of (part_in piece) < 2 ^ 63 }
    ensures { result ≡ more_of (part_in piece.entry) }
{
    match piece {
        Piece::Set(set) => set.len() + 1,
        Piece::Star | Piece::One | Piece::Byte(_) => 0,
    }
}

/// Whether the part is a star.
pub(crate) fn is_star(piece: Piece<'_>) -> bool
    ensures { result ≡ is_star (part_in piece.entry) }
{
    match piece {
        Piece::Star => true,
        Piece::One | Piece::Byte(_) | Piece::Set(_) => false,
    }
}

// Whether the part matches this byte. False for a star.
fn takes(piece: Piece<'_>, b: u8) -> bool
    ensures { result ≡ takes (part_in piece.entry) b }
{
    match piece {
        Piece::Star => false,
        Piece::One => true,
        Piece::Byte(x) => x == b,
        Piece::Set(set) => is_in_set(set, b),
    }
}

/// Whether the part matches the first byte of the name.
pub(crate) fn takes_first(piece: Piece<'_>, name: &[u8]) -> bool
    ensures first { result ≡ takes_first (part_in piece.entry) name.now }
    ensures some { IsTrue result → 0 < length name.now }
{
    !name.is_empty() && takes(piece, name[0])
}

impl<'p> Pieces<'p> {
    /// The parts of a pattern.
    pub(crate) fn of(pattern: &'p [u8]) -> Pieces<'p>
        ensures { result ≡ parts pattern.now }
    {
        Pieces {
            rest: pattern,
            unclosed: unclosed_len(pattern),
        }
    }

    /// A copy of these parts.
    pub(crate) fn again(&self) -> Pieces<'p>
        ensures { result ≡ self.now }
    {
        Pieces {
            rest: self.rest,
            unclosed: self.unclosed,
        }
    }

    /// The first part, and the parts after it.
    #[tactic(auto, using(crate::proofs::Skips::first_part, crate::proofs::Skips::unclosed_after))]
    pub(crate) fn split_first(self) -> Option<(Piece<'p>, Pieces<'p>)>
        ensures { MatchOption result (self.entry ≡ []) (λ r. self.entry ≡ part_in r.0 ∷ r.1) }
    {
        if self.rest.is_empty() {
            return None;
        }
        let more = after(self.rest, 1);
        let piece = piece_at(self.rest[0], more, self.unclosed);
        let rest = after(more, more_of(piece));
        Some((
            piece,
            Pieces {
                rest,
                unclosed: self.unclosed,
            },
        ))
    }
}
