//! The children of a directory of a tree.
ghost use Rattle.std.specs.Prelude.{◌≡◌, ◌≤◌, ◌∷◌, [], ◌&&◌, ℕ, List, true, IfSome, MatchOption, drop, length, nat_eq};
ghost use Rattle.std.specs.List.{dedup_from, starts_with};
ghost use Rattle.std.specs.Option.{option_copied};
ghost use Rattle.std.specs.Str.{bytes_eq};
ghost use Rattle.image_tree.specs.Paths.{name_after};
ghost use Rattle.image_tree.specs.Tree.{IsPathSorted};
ghost use Rattle.image_tree.specs.After.{AreSortedAfter};
ghost use Rattle.image_tree.specs.Runs.{IsPathOfChild, child_at, children_after, children_in, is_name_end, is_same_child};

use super::rest::Rest;
use super::row::PathEntry;
use crate::node::Node;
use crate::path::{begins_with, folder_in, is_below, name_from};
use std::marker::Model;

/// An iterator over the children of a directory: each name with its node, if it has one.
#[derive(Drop)]
pub struct Listing<'a> {
    rest: Rest<'a>,
    // the prefix of each child's path, up to the name
    folder: &'a [u8],
}

impl<'a> Model for Listing<'a> {
    ghost use Rattle.std.specs.Prelude.{ℕ, List, Option};
    ghost use Rattle.image_tree.specs.Runs.{children_in};
    ghost use Rattle.image_tree.specs.Tree.{IsPathSorted};
    ghost use Rattle.image_tree.specs.declared.node.Node.{Node};

    ghost Value = { List (List ℕ × Option Node) };

    ghost view = { λ s. children_in s.folder.now s.rest };

    ghost invariant = { λ s. IsPathSorted s.rest };
}

impl<'a> Listing<'a> {
    ghost use Rattle.std.specs.Prelude.{◌<◌, ◌^◌};
    ghost use Rattle.image_tree.specs.Paths.{folder};

    /// No children.
    pub(super) fn none() -> Listing<'a>
        ensures { result ≡ [] }
    {
        Listing {
            rest: Rest::none(),
            folder: b"",
        }
    }

    /// The children of the path. The entries in `rest` must begin with all entries below it.
    pub(super) fn of(rest: Rest<'a>, path: &[u8]) -> Listing<'a>
        requires short { length path.now < 2 ^ 32 }
        requires sorted { IsPathSorted rest }
        ensures { result ≡ children_in (folder path.now) rest.entry }
    {
        match rest.split_first() {
            Some((first, _)) if is_below(path, first.path) => {
                let folder = folder_in(path, first.path);
                Listing { rest, folder }
            }
            _ => Listing::none(),
        }
    }
}

impl<'a> Iterator for Listing<'a> {
    ghost use Rattle.std.specs.Iterator.{YieldsFirstBy, item_count};

    type Item = (&'a [u8], Option<&'a Node>);

    ghost next_gives = { YieldsFirstBy (λ x. (x.0.now, option_copied x.1)) (λ s. s) };

    ghost remaining = { item_count (λ s. s) };

    fn next(&mut self) -> Option<(&'a [u8], Option<&'a Node>)> {
        let (child, rest) = first_child(&self.rest, self.folder)?;
        self.rest = rest;
        Some(child)
    }
}

/// An iterator over the names of a directory's children.
#[derive(Drop)]
pub struct Children<'a> {
    listing: Listing<'a>,
}

impl<'a> Model for Children<'a> {
    ghost use Rattle.std.specs.Prelude.{ℕ, List, map};

    ghost Value = { List (List ℕ) };

    ghost view = { λ s. map (λ c. c.0) s.listing };
}

impl<'a> Children<'a> {
    ghost use Rattle.std.specs.Prelude.{map};

    /// The names of a listing.
    pub(super) fn of(listing: Listing<'a>) -> Children<'a>
        ensures { result ≡ map (λ c. c.0) listing.entry }
    {
        Children { listing }
    }
}

impl<'a> Iterator for Children<'a> {
    ghost use Rattle.std.specs.Iterator.{YieldsFirstRef, item_count};

    type Item = &'a [u8];

    ghost next_gives = { YieldsFirstRef (λ s. s) };

    ghost remaining = { item_count (λ s. s) };

    fn next(&mut self) -> Option<&'a [u8]> {
        let (name, _) = self.listing.next()?;
        Some(name)
    }
}

// The name that begins at `start` in the entry's path, and the node if the path ends after this name.
fn child_at<'a>(entry: PathEntry<'a>, start: usize) -> (&'a [u8], Option<&'a Node>)
    ensures { (result.0.now, option_copied result.1) ≡ child_at start (entry.entry.path.now, entry.entry.node.now) }
{
    let path = entry.path;
    let name = name_from(path, start);
    if name.len() == path.len().saturating_sub(start) {
        (name, Some(entry.node))
    } else {
        (name, None)
    }
}

// Whether a name ends after the first n bytes of the path: the path ends there, or a slash follows.
#[tactic(auto, using(crate::proofs::Names::ends_there, crate::proofs::Names::goes_on_there))]
fn is_name_end(path: &[u8], n: usize) -> bool
    ensures { result ≡ is_name_end (drop n path.now) }
{
    path.len() <= n || path[n] == b'/'
}

// Whether the path is the child's path or lies below it. Most entries belong to other children, and one byte rules them out.
fn is_child(child: &[u8], path: &[u8]) -> bool
    ensures { (folder name : List ℕ) → IsPathOfChild folder name child.now → result ≡ (starts_with nat_eq path.now folder && bytes_eq (name_after (length folder) path.now) name) }
{
    is_name_end(path, child.len()) && begins_with(path, child)
}

// The path of the child that this path belongs to.
#[tactic(auto, using(crate::proofs::Names::child_within))]
fn path_of_child<'a>(path: &'a [u8], folder: &[u8], name: &[u8]) -> &'a [u8]
    requires folder { starts_with nat_eq path.now folder.now ≡ true }
    requires name { name.now ≡ name_after (length folder.now) path.now }
    ensures { IsPathOfChild folder.now name.now result.now }
{
    &path[..folder.len() + name.len()]
}

// Skips to the last run that begins with an entry of the child. The skipped entries come before that entry, so they are the child's too.
fn from_last_run<'a>(entries: Rest<'a>, child: &[u8]) -> Rest<'a>
    requires { AreSortedAfter child.now entries }
    ensures sorted { AreSortedAfter child.now result }
    ensures few { length result ≤ length entries.entry }
    ensures same { (folder name : List ℕ) (node : _) → IsPathOfChild folder name child.now → dedup_from is_same_child (name, node) (children_after folder result)
        ≡ dedup_from is_same_child (name, node) (children_after folder entries.entry) }
{
    let mut rest = entries;
    while let Some((first, next)) = rest.next_run() {
        if !is_child(child, first.path) {
            break;
        }
        rest = next;
    }
    rest
}

// The entries after those of one child, given its path. A child that is a directory can have many entries.
#[tactic(auto, using(crate::proofs::AllOfChild::after_sorted))]
fn skip_child<'a>(entries: Rest<'a>, child: &[u8]) -> Rest<'a>
    requires { AreSortedAfter child.now entries }
    ensures sorted { IsPathSorted result }
    ensures children { (folder name : List ℕ) (node : _) → IsPathOfChild folder name child.now → dedup_from is_same_child (name, node) (children_after folder entries.entry)
        ≡ (name, node) ∷ children_in folder result }
{
    let mut rest = entries;
    while let Some((entry, more)) = rest.split_first() {
        if !is_child(child, entry.path) {
            break;
        }
        rest = from_last_run(more, child);
    }
    rest
}

// The first child in the directory with this prefix, and the entries after those of the child.
fn first_child<'a>(
    rest: &Rest<'a>,
    folder: &[u8],
) -> Option<((&'a [u8], Option<&'a Node>), Rest<'a>)>
    requires { IsPathSorted rest.now }
    ensures sorted { IfSome result (λ r. IsPathSorted r.1) }
    ensures children { MatchOption result (children_in folder.now rest.now ≡ [])
        (λ r. children_in folder.now rest.now ≡ (r.0.0.now, option_copied r.0.1) ∷ children_in folder.now r.1) }
{
    let (first, others) = rest.split_first()?;
    if !begins_with(first.path, folder) {
        return None;
    }
    let child = child_at(first, folder.len());
    let path = path_of_child(first.path, folder, child.0);
    Some((child, skip_child(others, path)))
}
