//! First words that are a dot and a path without escapes. Most first words are.
ghost use Rattle.std.specs.Prelude.{◌≡◌, ◌≤◌, ◌++◌, ◌∷◌, [], length, drop, IfSome, IsTrue};
ghost use Rattle.std.specs.List.{list_all};
ghost use Rattle.lib_types.specs.Name.{slash};
ghost use Rattle.manifest_words.specs.Naming.{LeadsTo};
ghost use Rattle.manifest_words.specs.Plain.{is_own, is_short, is_plain_path, IsKnown, IsAbove};

use crate::escape::has_backslash;
use crate::paths::after_first;
use lib_types::NAME_MAX;
use std::marker::Model;
use tree_face::{PATH_MAX, is_path};

/// The path of the last such word. It is empty before the first such word. Contracts see its bytes.
#[derive(Drop)]
pub struct KnownPath<'a> {
    bytes: &'a [u8],
}

impl<'a> Model for KnownPath<'a> {
    ghost use Rattle.std.specs.Prelude.{ℕ, List};
    ghost use Rattle.manifest_words.specs.Plain.{IsKnown};

    ghost Value = { List ℕ };

    ghost view = { λ k. k.bytes.now };

    ghost invariant = { λ k. IsKnown k.bytes.now };
}

// Whether a byte is ASCII, represents itself in a word, and doesn't separate names.
fn is_own(b: u8) -> bool
    ensures { result ≡ is_own b }
{
    b != b'/' && b != 0 && b != b'\\' && b < 128
}

// The first index from which on `is_own` holds for all bytes.
#[tactic(auto, using(crate::proofs::NextTo::own_before))]
fn own_from(path: &[u8]) -> usize
    ensures within { result ≤ length path.now }
    ensures own { IsTrue (list_all is_own (drop result path.now)) }
{
    let mut at = path.len();
    while at > 0 && is_own(path[at - 1]) {
        at -= 1;
    }
    at
}

// The path's directory and its last name, if `is_own` holds for all bytes of the name.
#[tactic(auto, using(crate::proofs::NextTo::divided_at))]
fn divided(path: &[u8]) -> Option<(&[u8], &[u8])>
    ensures parts { IfSome result (λ r. path.now ≡ r.0.now ++ slash ∷ r.1.now) }
    ensures own { IfSome result (λ r. IsTrue (list_all is_own r.1.now)) }
{
    let at = own_from(path);
    if at > 0 && path[at - 1] == b'/' {
        Some((&path[..at - 1], &path[at..]))
    } else {
        None
    }
}

// Whether a name has the length of a name, and isn't `.` or `..`.
fn is_short(name: &[u8]) -> bool
    ensures { result ≡ is_short name.now }
{
    !name.is_empty()
        && name.len() <= NAME_MAX
        && !(name == b".".as_slice() || name == b"..".as_slice())
}

// Whether a path is the folder, or is below it.
#[tactic(auto, using(crate::proofs::NextTo::above_end, crate::proofs::NextTo::above_slash))]
fn is_above(folder: &[u8], path: &[u8]) -> bool
    ensures { IsTrue result → IsAbove folder.now path.now }
{
    match path.strip_prefix(folder) {
        Some(rest) => rest.is_empty() || rest[0] == b'/',
        None => false,
    }
}

// Whether the bytes are a path without escapes whose directory is the known path or above it. Only the last name is checked.
fn is_next_to(known: &[u8], path: &[u8]) -> bool
    requires known { IsKnown known.now }
    ensures { IsTrue result → IsTrue (is_plain_path path.now) }
{
    if path.len() > PATH_MAX {
        return false;
    }
    match divided(path) {
        Some((folder, name)) => is_short(name) && is_above(folder, known),
        None => false,
    }
}

// Whether the bytes are a path without escapes.
fn is_plain_path(path: &[u8]) -> bool
    ensures { result ≡ is_plain_path path.now }
{
    is_path(path) && !has_backslash(path)
}

// The path of a first word, if the word is a dot and a path without escapes.
#[tactic(auto, using(crate::proofs::FullWords::dotted_path))]
fn dotted_path<'a>(known: &[u8], word: &'a [u8]) -> Option<&'a [u8]>
    requires known { IsKnown known.now }
    ensures path { IfSome result (λ path. LeadsTo word.entry.now path.now) }
    ensures plain { IfSome result (λ path. IsTrue (is_plain_path path.now)) }
{
    let path = after_first(word);
    if word.starts_with(b".") && (is_next_to(known, path) || is_plain_path(path)) {
        Some(path)
    } else {
        None
    }
}

impl<'a> KnownPath<'a> {
    /// No path is known.
    pub fn none() -> KnownPath<'a>
        ensures { result ≡ [] }
    {
        KnownPath { bytes: b"" }
    }

    /// The path of a first word, if the word is a dot and a path without escapes. It becomes the known path.
    pub fn next_path(&mut self, word: &'a [u8]) -> Option<&'a [u8]>
        ensures { IfSome result (λ path. LeadsTo word.entry.now path.now) }
    {
        let path = dotted_path(self.bytes, word)?;
        self.bytes = path;
        Some(path)
    }
}
