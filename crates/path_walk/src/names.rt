//! The names of a path text, and the paths at which a walk is.
ghost use Rattle.std.specs.Prelude.{◌≡◌, ◌<◌, ◌≤◌, ◌∷◌, ◌++◌, [], None, length, position, IfSome, MatchOption, OnOk, IfOk, drop, ◌+◌};
ghost use Rattle.std.specs.Option.{option_copied};
ghost use Rattle.lib_types.specs.Name.{slash};
ghost use Rattle.image_tree.specs.Paths.{is_slash, components, join};
ghost use Rattle.path_walk.specs.Names.{is_absolute, last, parent};
ghost use Rattle.path_walk.specs.Rest.{names_in, ends_at};
ghost use Rattle.lib_types.specs.Splits.{size_of};

use lib_types::{NoMemory, Separator, Text, cut};
use std::alloc::Global;
use tree_face::is_kept;

/// Whether the path is absolute.
pub fn is_absolute(text: &[u8]) -> bool
    ensures { result ≡ is_absolute text.now }
{
    text.starts_with(b"/")
}

/// The first name of a path text, and the text after it. None if the text has no name.
pub fn next_name(text: Option<&[u8]>) -> Option<(&[u8], Option<&[u8]>)>
    ensures name { MatchOption result (names_in (option_copied text.entry) ≡ [])
        (λ next. names_in (option_copied text.entry) ≡ next.0.now ∷ names_in (option_copied next.1)) }
    ensures shorter { IfSome result (λ next. size_of (option_copied next.1) < size_of (option_copied text.entry)) }
{
    let mut left = text;
    while let Some(bytes) = left {
        let (part, rest) = cut(Separator::Byte(b'/'), bytes);
        if is_kept(part) {
            return Some((part, rest));
        }
        left = rest;
    }
    None
}

/// The path of a name in a directory.
pub fn join(alloc: Global, folder: &[u8], name: &[u8]) -> Result<Text, NoMemory>
    ensures { IfOk result (λ path. path ≡ join folder.now name.now) }
{
    let mut path = Vec::with_capacity(alloc, folder.len() + 1 + name.len())?;
    path.extend_from_slice(folder)?;
    enter(&mut path, name)?;
    Ok(Text::from_vec(path))
}

/// Overwrites a text with the path of a name in a directory.
pub fn join_into(path: &mut Vec<u8>, folder: &[u8], name: &[u8]) -> Result<(), NoMemory>
    ensures { OnOk result (path.new.items ≡ join folder.now name.now) }
{
    path.clear();
    path.extend_from_slice(folder)?;
    enter(path, name)
}

/// Appends a name to the path of a directory.
pub fn enter(place: &mut Vec<u8>, name: &[u8]) -> Result<(), NoMemory>
    ensures { OnOk result (place.new.items ≡ join place.old.items name.now) }
{
    if place.as_slice() != b"/".as_slice() {
        place.push(b'/')?;
    }
    place.extend_from_slice(name)?;
    Ok(())
}

// The length of the directory part of a path, without the slash after it.
#[tactic(auto, using(crate::proofs::Folders::goes_on, crate::proofs::Folders::ends_here))]
fn folder_len(place: &[u8]) -> usize
    ensures ends { ends_at place.now result }
    ensures within { result ≤ length place.now }
{
    let mut n = place.len();
    while n > 0 {
        n -= 1;
        if place[n] == b'/' {
            return n;
        }
    }
    0
}

// The bytes after the byte at an offset.
fn after_byte(path: &[u8], n: usize) -> &[u8]
    ensures { result.now ≡ drop (n + 1) path.now }
{
    if n < path.len() { &path[n + 1..] } else { b"" }
}

/// The directory of a path, and its last name, which follows the last slash.
#[tactic(auto, using(crate::proofs::Folders::empty_before, crate::proofs::Folders::some_before, crate::proofs::Folders::last_after))]
pub fn parted(path: &[u8]) -> (&[u8], &[u8])
    ensures folder { result.0.now ≡ parent path.now }
    ensures name { result.1.now ≡ last path.now }
{
    let n = folder_len(path);
    let name = after_byte(path, n);
    if n == 0 {
        return (b"/", name);
    }
    (&path[..n], name)
}

/// Replaces a path by the path of its directory. The root is its own directory.
pub fn leave(place: &mut Vec<u8>) -> Result<(), NoMemory>
    ensures { OnOk result (place.new.items ≡ parent place.old.items) }
{
    let n = folder_len(place);
    place.truncate(n);
    if place.is_empty() {
        place.push(b'/')?;
    }
    Ok(())
}

// Two texts with a slash between them.
fn with_slash(alloc: Global, first: &[u8], rest: &[u8]) -> Result<Vec<u8>, NoMemory>
    ensures { IfOk result (λ text. text.items ≡ first.now ++ slash ∷ rest.now) }
{
    let mut text = Vec::with_capacity(alloc, first.len() + 1 + rest.len())?;
    text.extend_from_slice(first)?;
    text.push(b'/')?;
    text.extend_from_slice(rest)?;
    Ok(text)
}

/// A path text with the names of the first text, and then the names of the rest.
#[tactic(auto, using(crate::proofs::Joining::names_joined, crate::proofs::Joining::names_alone))]
pub fn joined(alloc: Global, first: &[u8], rest: Option<&[u8]>) -> Result<Vec<u8>, NoMemory>
    ensures { IfOk result (λ text. components text.items ≡ components first.now ++ names_in (option_copied rest.entry)) }
{
    match rest {
        Some(rest) => with_slash(alloc, first, rest),
        None => Ok(Vec::from_slice(alloc, first)?),
    }
}
