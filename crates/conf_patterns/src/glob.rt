//! Which names a pattern matches.
//!
//! A match takes at most (length of the pattern + 1) times (length of the name + 1) steps. It goes back only to the last
//! star. The parts between two stars take the first position where they fit, since a later position would leave less of
//! the name for the parts that follow. So each part of the pattern is tried at most once at each byte of the name. The
//! code doesn't recurse, and more stars don't multiply the cost.
ghost use Rattle.std.specs.Prelude.{◌≡◌, length};
ghost use Rattle.conf_patterns.specs.Glob.{glob_match, is_hidden, matches, some_tail};
ghost use Rattle.conf_patterns.specs.Matching.{comes_to, is_failure, Decides, IsShorter};

use crate::pieces::{Pieces, is_star, takes_first};
use lib_types::trim::after;

// How far the parts of a pattern match a name.
#[derive(Drop)]
enum Reach<'p, 'n> {
    // They don't match.
    Fails,
    // They match the whole name.
    Ends,
    // They match up to a star: the parts after the star, and the rest of the name.
    Star(Pieces<'p>, &'n [u8]),
}

fn is_failure(run: &Reach<'_, '_>) -> bool
    ensures { result ≡ is_failure run.now }
{
    match run {
        Reach::Fails => true,
        Reach::Ends | Reach::Star(..) => false,
    }
}

// Matches the parts up to the next star, or all of them, at the front of the name.
#[tactic(auto, using(crate::proofs::Stars::goes_none, crate::proofs::Stars::goes_on, crate::proofs::Stars::goes_not, crate::proofs::Stars::goes_to_star, crate::proofs::Stars::ends))]
fn run<'p, 'n>(pieces: Pieces<'p>, name: &'n [u8]) -> Reach<'p, 'n>
    ensures decides { Decides pieces.entry name.now result }
    ensures shorter { IsShorter (length pieces.entry) result }
{
    let mut pieces = pieces;
    let mut left = name;
    while let Some((piece, rest)) = pieces.split_first() {
        if is_star(piece) {
            return Reach::Star(rest, left);
        }
        if !takes_first(piece, left) {
            return Reach::Fails;
        }
        left = after(left, 1);
        pieces = rest;
    }
    if left.is_empty() {
        Reach::Ends
    } else {
        Reach::Fails
    }
}

// Matches the parts at the first position of the name where they don't fail.
#[tactic(auto, using(crate::proofs::Stars::found, crate::proofs::Stars::failed, crate::proofs::Stars::no_tail, crate::proofs::Stars::next_tail))]
fn seek<'p, 'n>(pieces: Pieces<'p>, name: &'n [u8]) -> Reach<'p, 'n>
    ensures finds { comes_to result ≡ some_tail (matches pieces.entry) name.now }
    ensures shorter { IsShorter (length pieces.entry) result }
{
    let mut left = name;
    loop {
        let found = run(pieces.again(), left);
        if !is_failure(&found) {
            return found;
        }
        if left.is_empty() {
            return Reach::Fails;
        }
        left = &left[1..];
    }
}

#[tactic(auto, using(crate::proofs::Stars::decided))]
fn match_pieces(pieces: Pieces<'_>, name: &[u8]) -> bool
    ensures { result ≡ matches pieces.entry name.now }
{
    let mut found = run(pieces, name);
    while let Reach::Star(rest, left) = found {
        found = seek(rest, left);
    }
    match found {
        Reach::Ends => true,
        Reach::Fails | Reach::Star(..) => false,
    }
}

fn is_hidden(name: &[u8]) -> bool
    ensures { result ≡ is_hidden name.now }
{
    name.starts_with(b".")
}

/// Whether one component of a pattern matches a name. Allocates no memory.
#[tactic(auto, unfolding(crate::specs::Glob::glob_match))]
pub fn glob_match(pattern: &[u8], name: &[u8]) -> bool
    ensures { result ≡ glob_match pattern.now name.now }
{
    (is_hidden(pattern) || !is_hidden(name)) && match_pieces(Pieces::of(pattern), name)
}
