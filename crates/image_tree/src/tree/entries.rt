//! Lookup and change of a tree's entries by path.
ghost use Rattle.std.specs.Prelude.{◌≡◌, ◌≢◌, ◌<◌, ◌≤◌, ◌^◌, IfOk, IfErr, IfSome, OnOk, OnErr, ◌↔◌, ◌+◌, ◌&&◌, IsTrue, None, Some, false, true, MatchResult, MatchOption, length, slice_index_or};
ghost use Rattle.std.specs.Str.{bytes_eq};
ghost use Rattle.std.specs.Option.{option_copied, is_some};
ghost use Rattle.image_tree.specs.Paths.{root, is_path};
ghost use Rattle.image_tree.specs.Index.{IsAfter, is_file_above, has_file_above};
ghost use Rattle.image_tree.specs.Runs.{joined, are_runs, index_of, AreRuns, AreFromDir, IsEntryPlace, IsPlace, IsPlaceOf, IsGapAt};
ghost use Rattle.image_tree.specs.declared.tree.TheConstants.{NODES_MAX};
ghost use Rattle.image_tree.specs.Tree.{IsPathSorted, IsTree, node_at, has_below, clashes, has_no_room, IsFullFor, kind_of, kind_at, put, remove};

use super::rest::Rest;
use super::row::PathEntry;
use super::run::Run;
use super::runs::{Place, entry_at, entry_before, entry_from, find, find_near, search};
use super::{Kind, NODES_MAX, TreeFault, runs as places};
use crate::node::{Node, is_dir};
use crate::path::{is_above, is_below};
use lib_types::NoMemory;
use std::alloc::Global;

// The node of the entry at this place.
fn node_of(runs: &Vec<Run>, place: Place) -> &Node
    requires { IsEntryPlace runs.now.items place }
    ensures { (d : _) → result.now ≡ (slice_index_or (joined runs.now.items) (index_of runs.now.items place) d).1 }
{
    entry_at(runs, place).node
}

/// The place of the path's entry, or the place of its gap. The entries from `near` on are tried first.
pub(super) fn find_at(runs: &Vec<Run>, near: Place, path: &[u8]) -> Result<Place, Place>
    requires runs { IsTrue (are_runs runs.now.items) }
    requires sorted { IsPathSorted (joined runs.now.items) }
    ensures { MatchResult result (IsPlaceOf runs.now.items path.now) (IsGapAt runs.now.items path.now) }
{
    match find_near(runs, near, path) {
        Some(place) => Ok(place),
        None => search(runs, path),
    }
}

/// The place of the path's entry, if it has one. The entries from `near` on are tried first.
pub(super) fn place_of(runs: &Vec<Run>, near: Place, path: &[u8]) -> Option<Place>
    requires runs { IsTrue (are_runs runs.now.items) }
    requires sorted { IsPathSorted (joined runs.now.items) }
    ensures { MatchOption result (node_at (joined runs.now.items) path.now ≡ None) (IsPlaceOf runs.now.items path.now) }
{
    match find_at(runs, near, path) {
        Ok(place) => Some(place),
        Err(_) => None,
    }
}

/// The node of the path. Its entry must be at this place.
pub(super) fn node<'a>(runs: &'a Vec<Run>, place: Place, path: &[u8]) -> &'a Node
    requires sorted { IsPathSorted (joined runs.now.items) }
    requires place { IsPlaceOf runs.now.items path.now place }
    ensures { node_at (joined runs.now.items) path.now ≡ Some result.now }
{
    node_of(runs, place)
}

// Removes the entry of the path.
fn take_out(runs: &mut Vec<Run>, place: Place, path: &[u8])
    requires runs { IsTrue (are_runs runs.old.items) }
    requires sorted { IsPathSorted (joined runs.old.items) }
    requires place { IsPlaceOf runs.old.items path.now place }
    ensures list { joined runs.new.items ≡ remove (joined runs.old.items) path.now }
    ensures runs { IsTrue (are_runs runs.new.items) }
    ensures one { length (joined runs.new.items) + 1 ≡ length (joined runs.old.items) }
{
    places::remove(runs, place);
}

/// Removes the entry of the path if there is one, and returns whether there was.
pub(super) fn remove(runs: &mut Vec<Run>, path: &[u8]) -> bool
    requires runs { IsTrue (are_runs runs.old.items) }
    requires sorted { IsPathSorted (joined runs.old.items) }
    ensures list { joined runs.new.items ≡ remove (joined runs.old.items) path.now }
    ensures runs { IsTrue (are_runs runs.new.items) }
    ensures found { result ≡ is_some (node_at (joined runs.old.items) path.now) }
    ensures none { result ≡ false → length (joined runs.new.items) ≡ length (joined runs.old.items) }
    ensures one { result ≡ true → length (joined runs.new.items) + 1 ≡ length (joined runs.old.items) }
{
    match search(runs, path) {
        Ok(place) => {
            take_out(runs, place, path);
            true
        }
        Err(_) => false,
    }
}

// Whether the text is a path with something below it. The entries from the place `following` on must be the ones after the path. If an entry
// lies below the text, the text is a path. So its bytes need no test.
fn has_below(runs: &Vec<Run>, path: &[u8], following: Place) -> bool
    requires runs { AreRuns runs.now.items }
    requires path { bytes_eq path.now root ≡ false }
    requires place { IsPlace runs.now.items following }
    requires following { IsAfter (joined runs.now.items) path.now (index_of runs.now.items following) }
    ensures { result ≡ (is_path path.now && has_below (joined runs.now.items) path.now) }
{
    match entry_from(runs, following) {
        Some(next) => is_above(path, next.path),
        None => false,
    }
}

fn kind_of(node: &Node) -> Kind
    ensures { result ≡ kind_of node.now }
{
    match node {
        Node::Dir => Kind::Dir,
        Node::File { .. } => Kind::File,
        Node::Link { .. } => Kind::Link,
    }
}

// The kind of the path, which must not be the root. A text that isn't a path has no node, and nothing lies below it.
fn kind_found(runs: &Vec<Run>, path: &[u8], found: Result<Place, Place>) -> Kind
    requires runs { AreRuns runs.now.items }
    requires path { bytes_eq path.now root ≡ false }
    requires found { MatchResult found (IsPlaceOf runs.now.items path.now) (IsGapAt runs.now.items path.now) }
    ensures { result ≡ kind_at (joined runs.now.items) path.now }
{
    match found {
        Ok(place) => kind_of(node_of(runs, place)),
        Err(place) => {
            if has_below(runs, path, place) {
                Kind::Dir
            } else {
                Kind::Absent
            }
        }
    }
}

/// The kind of a path without a node. `gap` is the place at which it would be inserted.
pub(super) fn kind_in_gap(runs: &Vec<Run>, path: &[u8], gap: Place) -> Kind
    requires runs { AreRuns runs.now.items }
    requires gap { IsGapAt runs.now.items path.now gap }
    ensures none { node_at (joined runs.now.items) path.now ≡ None }
    ensures kind { result ≡ kind_at (joined runs.now.items) path.now }
{
    if path == b"/".as_slice() {
        return Kind::Dir;
    }
    kind_found(runs, path, Err(gap))
}

/// The kind of the path.
pub(super) fn kind(runs: &Vec<Run>, path: &[u8]) -> Kind
    requires { AreRuns runs.now.items }
    ensures { result ≡ kind_at (joined runs.now.items) path.now }
{
    if path == b"/".as_slice() {
        return Kind::Dir;
    }
    let found = search(runs, path);
    kind_found(runs, path, found)
}

// Whether this entry is a file or a link above the path.
fn is_file_above(entry: PathEntry<'_>, path: &[u8]) -> bool
    ensures { result ≡ is_file_above path.now (entry.entry.path.now, entry.entry.node.now) }
{
    is_below(entry.path, path) && !is_dir(entry.node)
}

// Whether the entry directly before the place is a file or a link above the path.
fn is_file_before(runs: &Vec<Run>, path: &[u8], place: Place) -> bool
    requires runs { AreRuns runs.now.items }
    requires gap { IsGapAt runs.now.items path.now place }
    ensures { result ≡ has_file_above (joined runs.now.items) path.now }
{
    match entry_before(runs, place) {
        Some(entry) => is_file_above(entry, path),
        None => false,
    }
}

// Whether the path lies below a file or a link. In a tree nothing lies below a file or a link. So if the path has an entry, it doesn't.
// Otherwise only the entry directly before its gap can be above it.
fn has_file_above(runs: &Vec<Run>, path: &[u8], found: Result<Place, Place>) -> bool
    requires runs { AreRuns runs.now.items }
    requires found { MatchResult found (IsPlaceOf runs.now.items path.now) (IsGapAt runs.now.items path.now) }
    ensures { result ≡ has_file_above (joined runs.now.items) path.now }
{
    match found {
        Ok(_) => false,
        Err(place) => is_file_before(runs, path, place),
    }
}

// The place of the first entry after the path.
fn following(runs: &Vec<Run>, path: &[u8], found: Result<Place, Place>) -> Place
    requires runs { IsTrue (are_runs runs.now.items) }
    requires sorted { IsPathSorted (joined runs.now.items) }
    requires found { MatchResult found (IsPlaceOf runs.now.items path.now) (IsGapAt runs.now.items path.now) }
    ensures place { IsPlace runs.now.items result }
    ensures following { IsAfter (joined runs.now.items) path.now (index_of runs.now.items result) }
{
    match found {
        Ok(place) => Place {
            run: place.run,
            at: place.at + 1,
        },
        Err(place) => place,
    }
}

// Whether a file or link would have something below it after the node is put.
fn clashes(runs: &Vec<Run>, path: &[u8], node: &Node, found: Result<Place, Place>) -> bool
    requires runs { AreRuns runs.now.items }
    requires path { IsTrue (is_path path.now) }
    requires found { MatchResult found (IsPlaceOf runs.now.items path.now) (IsGapAt runs.now.items path.now) }
    ensures { result ≡ clashes (joined runs.now.items) path.now node.now }
{
    has_file_above(runs, path, found)
        || (!is_dir(node) && has_below(runs, path, following(runs, path, found)))
}

// Whether the path is new and the tree already has `NODES_MAX` nodes.
fn has_no_room(runs: &Vec<Run>, count: usize, path: &[u8], found: Result<Place, Place>) -> bool
    requires runs { AreRuns runs.now.items }
    requires count { count ≡ length (joined runs.now.items) }
    requires found { MatchResult found (IsPlaceOf runs.now.items path.now) (IsGapAt runs.now.items path.now) }
    ensures value { result ≡ has_no_room (joined runs.now.items) path.now }
    ensures room { IfErr found (λ _. result ≡ false → length (joined runs.now.items) < NODES_MAX) }
{
    match found {
        Ok(_) => false,
        Err(_) => count == NODES_MAX,
    }
}

/// The place of the path's entry or of its gap, or the reason why the node can't be put. The run of `near` is tried first.
pub(super) fn find_for(
    runs: &Vec<Run>,
    near: Place,
    count: usize,
    path: &[u8],
    node: &Node,
) -> Result<Result<Place, Place>, TreeFault>
    requires runs { AreRuns runs.now.items }
    requires count { count ≡ length (joined runs.now.items) }
    requires path { IsTrue (is_path path.now) }
    ensures clash { (result ≡ Err TreeFault.Clash) ↔ IsTrue (clashes (joined runs.now.items) path.now node.now) }
    ensures full { (result ≡ Err TreeFault.Full) ↔ IsFullFor (joined runs.now.items) path.now node.now }
    ensures free { OnOk result (clashes (joined runs.now.items) path.now node.now ≡ false) }
    ensures memory { result ≢ Err TreeFault.NoMemory }
    ensures found { IfOk result (λ found. MatchResult found (IsPlaceOf runs.now.items path.now) (IsGapAt runs.now.items path.now)) }
    ensures room { IfOk result (λ found. IfErr found (λ _. length (joined runs.now.items) < NODES_MAX)) }
{
    let found = find(runs, near, path);
    if clashes(runs, path, node, found) {
        return Err(TreeFault::Clash);
    }
    if has_no_room(runs, count, path, found) {
        return Err(TreeFault::Full);
    }
    Ok(found)
}

// Replaces the node of the path's entry.
fn replace(runs: &mut Vec<Run>, place: Place, path: &[u8], node: Node)
    requires runs { IsTrue (are_runs runs.old.items) }
    requires sorted { IsPathSorted (joined runs.old.items) }
    requires place { IsPlaceOf runs.old.items path.now place }
    ensures list { joined runs.new.items ≡ put (joined runs.old.items) path.now node }
    ensures runs { IsTrue (are_runs runs.new.items) }
    ensures count { length (joined runs.new.items) ≡ length (joined runs.old.items) }
{
    places::set_node(runs, place, node);
}

// Inserts an entry for a path that has none.
fn insert(
    alloc: Global,
    runs: &mut Vec<Run>,
    place: Place,
    path: &[u8],
    node: Node,
) -> Result<(), NoMemory>
    requires runs { IsTrue (are_runs runs.old.items) }
    requires gap { IsGapAt runs.old.items path.now place }
    ensures done { OnOk result (joined runs.new.items ≡ put (joined runs.old.items) path.now node) }
    ensures count { OnOk result (length (joined runs.new.items) ≡ length (joined runs.old.items) + 1) }
    ensures refused { OnErr result (joined runs.new.items ≡ joined runs.old.items) }
    ensures runs { IsTrue (are_runs runs.new.items) }
{
    places::insert(alloc, runs, place, path, node)?;
    Ok(())
}

/// Puts the node at the place that was found, and returns the new number of nodes.
pub(super) fn put_at(
    alloc: Global,
    runs: &mut Vec<Run>,
    count: usize,
    found: Result<Place, Place>,
    path: &[u8],
    node: Node,
) -> Result<usize, NoMemory>
    requires runs { IsTrue (are_runs runs.old.items) }
    requires count { count ≡ length (joined runs.old.items) }
    requires sorted { IsPathSorted (joined runs.old.items) }
    requires found { MatchResult found (IsPlaceOf runs.old.items path.now) (IsGapAt runs.old.items path.now) }
    requires room { IfErr found (λ _. length (joined runs.old.items) < NODES_MAX) }
    ensures done { OnOk result (joined runs.new.items ≡ put (joined runs.old.items) path.now node) }
    ensures count { IfOk result (λ count. count ≡ length (joined runs.new.items)) }
    ensures refused { OnErr result (joined runs.new.items ≡ joined runs.old.items) }
    ensures runs { IsTrue (are_runs runs.new.items) }
{
    match found {
        Ok(place) => {
            replace(runs, place, path, node);
            Ok(count)
        }
        Err(place) => {
            insert(alloc, runs, place, path, node)?;
            Ok(count + 1)
        }
    }
}

/// If the path is a directory, the entries after it. They begin with all entries below the path.
pub(super) fn from_dir<'a>(runs: &'a Vec<Run>, path: &[u8]) -> Option<Rest<'a>>
    requires { AreRuns runs.now.items }
    ensures entries { MatchOption result (kind_at (joined runs.now.items) path.now ≢ Kind.Dir) (AreFromDir (joined runs.now.items) path.now) }
    ensures sorted { IfSome result IsPathSorted }
{
    if path == b"/".as_slice() {
        return Some(Rest::all(runs));
    }
    let found = search(runs, path);
    match kind_found(runs, path, found) {
        Kind::Dir => Some(Rest::from(runs, following(runs, path, found))),
        _ => None,
    }
}
