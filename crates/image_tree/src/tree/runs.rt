//! The runs of a tree, and places in them.
ghost use Rattle.std.specs.Prelude.{◌≡◌, ℕ, ◌<◌, ◌≤◌, [], IfOk, IfErr, IfSome, OnOk, OnErr, IsTrue, true, MatchOption, if◌then◌else◌, ◌==◌, ◌∷◌, ◌++◌, ◌+◌, false, length, take, drop, slice_index_or, slice_set};
ghost use Rattle.std.specs.List.{insert, remove};
ghost use Rattle.std.specs.Vec.{vec_len, vec_capacity};
ghost use Rattle.image_tree.specs.Index.{IsGapFor};
ghost use Rattle.image_tree.specs.Runs.{joined, is_run, are_runs, index_of, run_length, begins_by, divided, HasRoomAt, IsWithNode, IsRunWithNode, IsEntryPlace, IsPlace, IsPlaceOf, IsGapAt, IsEntryAt, IsEntryBefore};
ghost use Rattle.image_tree.specs.Tree.{IsPathSorted};
ghost use Rattle.image_tree.specs.declared.tree.run.TheConstants.{RUN_MAX};

use super::row::PathEntry;
use super::run::{RUN_MAX, Run};
use crate::node::Node;
use crate::path::compare;
use lib_types::NoMemory;
use std::alloc::Global;

/// The index of a run, and an index in the run.
#[derive(Clone, Copy)]
pub(super) struct Place {
    pub(super) run: usize,
    pub(super) at: usize,
}

/// The run at this index.
pub(super) fn run_of(runs: &Vec<Run>, index: usize) -> &Run
    requires { index < length runs.now.items }
    ensures { result.now ≡ slice_index_or runs.now.items index [] }
{
    &runs[index]
}

// The entry at this index of a run.
fn entry_of(run: &Run, index: usize) -> PathEntry<'_>
    requires { index < length run.now }
    ensures { (d : _) → (result.path.now, result.node.now) ≡ slice_index_or run.now index d }
{
    run.rows().get(index)
}

/// The entry at the place.
pub(super) fn entry_at(runs: &Vec<Run>, place: Place) -> PathEntry<'_>
    requires { IsEntryPlace runs.now.items place }
    ensures { IsEntryAt (joined runs.now.items) (index_of runs.now.items place) (result.path.now, result.node.now) }
{
    entry_of(run_of(runs, place.run), place.at)
}

/// The first entry from the place on.
pub(super) fn entry_from(runs: &Vec<Run>, place: Place) -> Option<PathEntry<'_>>
    requires runs { IsTrue (are_runs runs.now.items) }
    requires place { IsPlace runs.now.items place }
    ensures { MatchOption result (index_of runs.now.items place ≡ length (joined runs.now.items))
        (λ e. IsEntryAt (joined runs.now.items) (index_of runs.now.items place) (e.path.now, e.node.now)) }
{
    if place.run == runs.len() {
        return None;
    }
    if place.at < run_of(runs, place.run).len() {
        return Some(entry_at(runs, place));
    }
    if place.run + 1 == runs.len() {
        return None;
    }
    Some(entry_at(
        runs,
        Place {
            run: place.run + 1,
            at: 0,
        },
    ))
}

/// The entry directly before the place.
pub(super) fn entry_before(runs: &Vec<Run>, place: Place) -> Option<PathEntry<'_>>
    requires runs { IsTrue (are_runs runs.now.items) }
    requires place { IsPlace runs.now.items place }
    ensures { MatchOption result (index_of runs.now.items place ≡ 0)
        (λ e. IsEntryBefore (joined runs.now.items) (index_of runs.now.items place) (e.path.now, e.node.now)) }
{
    if place.at > 0 {
        return Some(entry_at(
            runs,
            Place {
                run: place.run,
                at: place.at - 1,
            },
        ));
    }
    if place.run == 0 {
        return None;
    }
    let run = place.run - 1;
    let at = run_of(runs, run).len() - 1;
    Some(entry_at(runs, Place { run, at }))
}

// The place after all entries. If the last run is full, it is the start of a new run. So the entries of a sorted manifest fill their runs.
#[tactic(auto, using(crate::proofs::Runs::start_end))]
fn end(runs: &Vec<Run>) -> Place
    ensures place { IsPlace runs.now.items result }
    ensures index { index_of runs.now.items result ≡ length (joined runs.now.items) }
{
    let count = runs.len();
    if count == 0 || run_of(runs, count - 1).len() >= RUN_MAX {
        return Place { run: count, at: 0 };
    }
    let run = count - 1;
    let at = run_of(runs, run).len();
    Place { run, at }
}

// Whether the path comes after all entries.
fn is_after_all(runs: &Vec<Run>, path: &[u8], end: Place) -> bool
    requires runs { IsTrue (are_runs runs.now.items) }
    requires sorted { IsPathSorted (joined runs.now.items) }
    requires place { IsPlace runs.now.items end }
    requires index { index_of runs.now.items end ≡ length (joined runs.now.items) }
    ensures { IsTrue result → IsGapFor (joined runs.now.items) path.now (index_of runs.now.items end) }
{
    match entry_before(runs, end) {
        None => true,
        Some(last) => compare(last.path, path).is_lt(),
    }
}

// The number of runs whose first entry is at the path or before it.
fn runs_by(runs: &Vec<Run>, path: &[u8]) -> usize
    requires runs { IsTrue (are_runs runs.now.items) }
    requires sorted { IsPathSorted (joined runs.now.items) }
    ensures bound { result ≤ length runs.now.items }
    ensures before { (i : ℕ) → i < result → begins_by path.now (slice_index_or runs.now.items i []) ≡ true }
    ensures after { (i : ℕ) → result ≤ i → i < length runs.now.items → begins_by path.now (slice_index_or runs.now.items i []) ≡ false }
{
    runs.partition_point(
        |run: &Run| -> bool
            ensures { result ≡ begins_by path.entry.now run.now }
        { run.begins_by(path) },
    )
}

// Whether the run at this index begins at the path or before it, and the next run, if there is one, begins after it.
fn is_run_for(runs: &Vec<Run>, index: usize, path: &[u8]) -> bool
    ensures within { IsTrue result → index < length runs.now.items }
    ensures before { IsTrue result → begins_by path.now (slice_index_or runs.now.items index []) ≡ true }
    ensures after { IsTrue result → index + 1 < length runs.now.items → begins_by path.now (slice_index_or runs.now.items (index + 1) []) ≡ false }
{
    if index >= runs.len() || !run_of(runs, index).begins_by(path) {
        return false;
    }
    index + 1 == runs.len() || !run_of(runs, index + 1).begins_by(path)
}

// The result of `search`, if the run of the path is known.
fn search_in(runs: &Vec<Run>, run: usize, path: &[u8]) -> Result<Place, Place>
    requires runs { IsTrue (are_runs runs.now.items) }
    requires sorted { IsPathSorted (joined runs.now.items) }
    requires within { run < length runs.now.items }
    requires before { begins_by path.now (slice_index_or runs.now.items run []) ≡ true }
    requires after { run + 1 < length runs.now.items → begins_by path.now (slice_index_or runs.now.items (run + 1) []) ≡ false }
    ensures found { IfOk result (IsPlaceOf runs.now.items path.now) }
    ensures absent { IfErr result (IsGapAt runs.now.items path.now) }
{
    match run_of(runs, run).search(path) {
        Ok(at) => Ok(Place { run, at }),
        Err(at) => Err(Place { run, at }),
    }
}

/// The place of the path's entry, or the place at which it would be inserted.
pub(super) fn search(runs: &Vec<Run>, path: &[u8]) -> Result<Place, Place>
    requires runs { IsTrue (are_runs runs.now.items) }
    requires sorted { IsPathSorted (joined runs.now.items) }
    ensures found { IfOk result (IsPlaceOf runs.now.items path.now) }
    ensures absent { IfErr result (IsGapAt runs.now.items path.now) }
{
    let count = runs_by(runs, path);
    if count == 0 {
        return Err(Place { run: 0, at: 0 });
    }
    search_in(runs, count - 1, path)
}

/// The place of the path's entry, if it is one of the next few entries from this place on in the same run. Any place is allowed. Paths that
/// are looked up one after another are mostly close together.
pub(super) fn find_near(runs: &Vec<Run>, near: Place, path: &[u8]) -> Option<Place>
    ensures { IfSome result (IsPlaceOf runs.now.items path.now) }
{
    if near.run >= runs.len() {
        return None;
    }
    let at = run_of(runs, near.run).find_near(near.at, path)?;
    Some(Place { run: near.run, at })
}

/// The place at which a path is put: the place of its entry, or of its gap. Each line of a sorted manifest comes after all others, and that
/// case needs no search. Many other paths belong to the run of the previous one, so that run is tried first.
pub(super) fn find(runs: &Vec<Run>, near: Place, path: &[u8]) -> Result<Place, Place>
    requires runs { IsTrue (are_runs runs.now.items) }
    requires sorted { IsPathSorted (joined runs.now.items) }
    ensures found { IfOk result (IsPlaceOf runs.now.items path.now) }
    ensures absent { IfErr result (IsGapAt runs.now.items path.now) }
{
    let end = end(runs);
    if is_after_all(runs, path, end) {
        return Err(end);
    }
    if is_run_for(runs, near.run, path) {
        return search_in(runs, near.run, path);
    }
    search(runs, path)
}

// Overwrites the node of the entry at this index of a run.
fn set_in_run(runs: &mut Vec<Run>, run: usize, at: usize, node: Node)
    requires run { run < length runs.old.items }
    requires at { at < run_length runs.old.items run }
    ensures { IsRunWithNode runs.old.items run at node runs.new.items }
{
    runs[run].set_node(at, node);
}

/// Overwrites the node of the entry at the place.
pub(super) fn set_node(runs: &mut Vec<Run>, place: Place, node: Node)
    requires runs { IsTrue (are_runs runs.old.items) }
    requires place { IsEntryPlace runs.old.items place }
    ensures joined { IsWithNode (joined runs.old.items) (index_of runs.old.items place) node (joined runs.new.items) }
    ensures runs { IsTrue (are_runs runs.new.items) }
{
    set_in_run(runs, place.run, place.at, node);
}

// Removes the entry at this index of a run.
fn remove_in_run(runs: &mut Vec<Run>, run: usize, at: usize)
    requires run { run < length runs.old.items }
    requires at { at < run_length runs.old.items run }
    ensures { runs.new.items ≡ slice_set runs.old.items run (remove (slice_index_or runs.old.items run []) at) }
{
    runs[run].remove(at);
}

// Removes this run if it has no entry.
fn remove_if_empty(runs: &mut Vec<Run>, run: usize)
    requires { run < length runs.old.items }
    ensures { runs.new.items ≡ (if run_length runs.old.items run == 0 then remove runs.old.items run else runs.old.items) }
{
    if run_of(runs, run).len() == 0 {
        let _ = runs.remove(run);
    }
}

/// Removes the entry at the place.
pub(super) fn remove(runs: &mut Vec<Run>, place: Place)
    requires runs { IsTrue (are_runs runs.old.items) }
    requires place { IsEntryPlace runs.old.items place }
    ensures joined { joined runs.new.items ≡ remove (joined runs.old.items) (index_of runs.old.items place) }
    ensures runs { IsTrue (are_runs runs.new.items) }
{
    remove_in_run(runs, place.run, place.at);
    remove_if_empty(runs, place.run);
}

// Inserts an entry at this index of a run.
fn insert_in_run(
    alloc: Global,
    runs: &mut Vec<Run>,
    run: usize,
    at: usize,
    path: &[u8],
    node: Node,
) -> Result<(), NoMemory>
    requires run { run < length runs.old.items }
    requires at { at ≤ run_length runs.old.items run }
    ensures done { OnOk result (runs.new.items ≡ slice_set runs.old.items run (insert (slice_index_or runs.old.items run []) at (path.now, node))) }
    ensures refused { OnErr result (runs.new.items ≡ runs.old.items) }
{
    runs[run].insert(alloc, at, path, node)
}

// Moves the entries of a run from this index on into a new run, and returns that run.
fn split_run(alloc: Global, runs: &mut Vec<Run>, run: usize, at: usize) -> Result<Run, NoMemory>
    requires run { run < length runs.old.items }
    requires at { at ≤ run_length runs.old.items run }
    ensures done { OnOk result (runs.new.items ≡ slice_set runs.old.items run (take at (slice_index_or runs.old.items run []))) }
    ensures back { IfOk result (λ back. back ≡ drop at (slice_index_or runs.old.items run [])) }
    ensures refused { OnErr result (runs.new.items ≡ runs.old.items) }
    ensures len { vec_len runs.new ≡ vec_len runs.old }
    ensures capacity { vec_capacity runs.new ≡ vec_capacity runs.old }
{
    runs[run].split_off(alloc, at)
}

// Divides a run at this index into two. All memory is allocated before an entry is moved.
fn divide(alloc: Global, runs: &mut Vec<Run>, run: usize, at: usize) -> Result<(), NoMemory>
    requires run { run < length runs.old.items }
    requires at { at ≤ run_length runs.old.items run }
    ensures done { OnOk result (runs.new.items ≡ divided runs.old.items run at) }
    ensures refused { OnErr result (runs.new.items ≡ runs.old.items) }
{
    runs.try_reserve(1)?;
    let back = split_run(alloc, runs, run, at)?;
    runs.insert(run + 1, back)?;
    Ok(())
}

// Divides the place's run in the middle, and returns the place that then has the same index in the joined list.
fn divide_at(alloc: Global, runs: &mut Vec<Run>, place: Place) -> Result<Place, NoMemory>
    requires runs { IsTrue (are_runs runs.old.items) }
    requires run { place.run < length runs.old.items }
    requires at { place.at ≤ run_length runs.old.items place.run }
    requires full { run_length runs.old.items place.run ≡ RUN_MAX }
    ensures same { joined runs.new.items ≡ joined runs.old.items }
    ensures runs { IsTrue (are_runs runs.new.items) }
    ensures place { IfOk result (HasRoomAt runs.new.items) }
    ensures index { IfOk result (λ there. index_of runs.new.items there ≡ index_of runs.old.items place) }
{
    const MIDDLE: usize = RUN_MAX / 2;
    divide(alloc, runs, place.run, MIDDLE)?;
    if place.at <= MIDDLE {
        return Ok(place);
    }
    Ok(Place {
        run: place.run + 1,
        at: place.at - MIDDLE,
    })
}

// The place with the same index in the joined list, in a run that has room for one more entry. A full run is divided.
fn make_room(alloc: Global, runs: &mut Vec<Run>, place: Place) -> Result<Place, NoMemory>
    requires runs { IsTrue (are_runs runs.old.items) }
    requires run { place.run < length runs.old.items }
    requires at { place.at ≤ run_length runs.old.items place.run }
    ensures same { joined runs.new.items ≡ joined runs.old.items }
    ensures runs { IsTrue (are_runs runs.new.items) }
    ensures place { IfOk result (HasRoomAt runs.new.items) }
    ensures index { IfOk result (λ there. index_of runs.new.items there ≡ index_of runs.old.items place) }
{
    if run_of(runs, place.run).len() < RUN_MAX {
        return Ok(place);
    }
    divide_at(alloc, runs, place)
}

// Inserts an entry at a place in a run that has room.
fn insert_in_room(
    alloc: Global,
    runs: &mut Vec<Run>,
    place: Place,
    path: &[u8],
    node: Node,
) -> Result<(), NoMemory>
    requires runs { IsTrue (are_runs runs.old.items) }
    requires place { HasRoomAt runs.old.items place }
    ensures done { OnOk result (joined runs.new.items ≡ insert (joined runs.old.items) (index_of runs.old.items place) (path.now, node)) }
    ensures refused { OnErr result (joined runs.new.items ≡ joined runs.old.items) }
    ensures runs { IsTrue (are_runs runs.new.items) }
{
    insert_in_run(alloc, runs, place.run, place.at, path, node)?;
    Ok(())
}

// Adds a run of one entry after all runs.
fn push_run(alloc: Global, runs: &mut Vec<Run>, path: &[u8], node: Node) -> Result<(), NoMemory>
    ensures done { OnOk result (runs.new.items ≡ runs.old.items ++ ((path.now, node) ∷ []) ∷ []) }
    ensures refused { OnErr result (runs.new.items ≡ runs.old.items) }
{
    let mut run = Run::new(alloc)?;
    run.insert(alloc, 0, path, node)?;
    runs.push(run)?;
    Ok(())
}

/// Inserts an entry at the place.
pub(super) fn insert(
    alloc: Global,
    runs: &mut Vec<Run>,
    place: Place,
    path: &[u8],
    node: Node,
) -> Result<(), NoMemory>
    requires runs { IsTrue (are_runs runs.old.items) }
    requires place { IsPlace runs.old.items place }
    ensures done { OnOk result (joined runs.new.items ≡ insert (joined runs.old.items) (index_of runs.old.items place) (path.now, node)) }
    ensures refused { OnErr result (joined runs.new.items ≡ joined runs.old.items) }
    ensures runs { IsTrue (are_runs runs.new.items) }
{
    if place.run == runs.len() {
        return push_run(alloc, runs, path, node);
    }
    let place = make_room(alloc, runs, place)?;
    insert_in_room(alloc, runs, place, path, node)?;
    Ok(())
}
