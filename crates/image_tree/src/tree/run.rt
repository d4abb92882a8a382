//! A run of a tree's entries.
ghost use Rattle.std.specs.Prelude.{◌≡◌, ◌<◌, ◌≤◌, [], OnOk, OnErr, IfOk, IfErr, IfSome, length, take, drop, zip, slice_index_or, slice_set};
ghost use Rattle.std.specs.List.{insert, remove};
ghost use Rattle.std.specs.Map.{keys_of};
ghost use Rattle.image_tree.specs.Index.{IsIndexOf, IsGapFor};
ghost use Rattle.image_tree.specs.OneText.{nodes_of, parts_in_rows};
ghost use Rattle.image_tree.specs.Runs.{begins_by};
ghost use Rattle.image_tree.specs.Tree.{IsPathSorted};

use super::paths::Paths;
use super::row::{Row, Rows};
use crate::node::Node;
use crate::path::PATH_MAX;
use lib_types::{NoMemory, Part};
use std::alloc::Global;
use std::marker::Model;

/// The maximum number of entries of a run. A put or a removal moves at most this many entries. A smaller limit would make more runs, and
/// dividing a run moves all runs after it.
pub(super) const RUN_MAX: usize = 64;

// The number of entries for which a run reserves room when its rows are full. A larger number would waste memory if paths are put unsorted.
const ROOM: usize = 16;

// The typical length of a path in bytes. A new run reserves room for `RUN_MAX` paths of this length.
const PATH_LEN: usize = 48;

// The maximum total length of the paths of a run. If the text is longer, it is rebuilt from the paths of the entries.
const RUN_TEXT_MAX: usize = RUN_MAX * PATH_MAX;

/// A run of entries. In contracts it is the list of its entries. Their paths are parts of one text. So a path takes the memory of its bytes
/// and of two offsets. The path of a removed entry stays in the text.
#[derive(Drop)]
pub(super) struct Run {
    text: Vec<u8>,
    rows: Vec<Row>,
}

impl Model for Run {
    ghost use Rattle.std.specs.Prelude.{length};
    ghost use Rattle.image_tree.specs.OneText.{entries_in, parts_in_rows, AreWithin};
    ghost use Rattle.image_tree.specs.Tree.{Nodes};

    ghost Value = { Nodes };

    ghost view = { λ r. entries_in r.text.items r.rows.items };

    ghost invariant = { λ r. AreWithin (length r.text.items) (parts_in_rows r.rows.items) };
}

impl Run {
    /// An empty run, with room for `RUN_MAX` entries.
    pub(super) fn new(alloc: Global) -> Result<Run, NoMemory>
        ensures { IfOk result (λ run. run ≡ []) }
    {
        Ok(Run {
            text: Vec::with_capacity(alloc, RUN_MAX * PATH_LEN)?,
            rows: Vec::with_capacity(alloc, RUN_MAX)?,
        })
    }

    /// The number of entries.
    pub(super) fn len(&self) -> usize
        ensures { result ≡ length self.now }
    {
        self.rows.len()
    }

    /// The entries.
    pub(super) fn rows(&self) -> Rows<'_>
        ensures { result ≡ self.now }
    {
        Rows {
            text: self.text.as_slice(),
            rows: self.rows.as_slice(),
        }
    }

    /// Whether the first entry of the run is at the path or before it.
    pub(super) fn begins_by(&self, path: &[u8]) -> bool
        ensures { result ≡ begins_by path.now self.now }
    {
        self.rows().begin_by(path)
    }

    /// The index of the path's entry, or the index of its gap.
    pub(super) fn search(&self, path: &[u8]) -> Result<usize, usize>
        requires { IsPathSorted self.now }
        ensures found { IfOk result (IsIndexOf self.now path.now) }
        ensures absent { IfErr result (IsGapFor self.now path.now) }
    {
        self.rows().search(path)
    }

    /// The index of the path's entry, if it is one of the next few entries from this index on.
    pub(super) fn find_near(&self, from: usize, path: &[u8]) -> Option<usize>
        ensures { IfSome result (IsIndexOf self.now path.now) }
    {
        self.rows().find_near(from, path)
    }

    /// Overwrites the node of the entry at this index.
    pub(super) fn set_node(&mut self, index: usize, node: Node)
        requires { index < length self.old }
        ensures { (d : _) → self.new ≡ slice_set self.old index ((slice_index_or self.old index d).0, node) }
    {
        set_node(&mut self.rows, index, node);
    }

    /// Removes the entry at this index.
    #[tactic(auto, using(crate::proofs::OneText::entries_removed))]
    pub(super) fn remove(&mut self, index: usize)
        requires { index < length self.old }
        ensures { self.new ≡ remove self.old index }
    {
        let _ = self.rows.remove(index);
    }

    /// Inserts an entry at this index.
    pub(super) fn insert(
        &mut self,
        alloc: Global,
        index: usize,
        path: &[u8],
        node: Node,
    ) -> Result<(), NoMemory>
        requires { index ≤ length self.old }
        ensures done { OnOk result (self.new ≡ insert self.old index (path.now, node)) }
        ensures refused { OnErr result (self.new ≡ self.old) }
    {
        self.keep_short(alloc)?;
        self.add(index, path, node)?;
        self.shrink_if_full();
        Ok(())
    }

    // Inserts an entry. Its path is appended to the text.
    fn add(&mut self, index: usize, path: &[u8], node: Node) -> Result<(), NoMemory>
        requires { index ≤ length self.old }
        ensures done { OnOk result (self.new ≡ insert self.old index (path.now, node)) }
        ensures refused { OnErr result (self.new ≡ self.old) }
    {
        let part = Part::add(&mut self.text, path)?;
        insert_row(&mut self.rows, index, Row { part, node })
    }

    // Frees the unused room of the text when the run is full. A full run is divided before another path is added.
    fn shrink_if_full(&mut self)
        ensures { self.new ≡ self.old }
    {
        if self.rows.len() >= RUN_MAX {
            self.text.shrink_to_fit();
        }
    }

    // Rebuilds the text if it is longer than the paths of a run can be. The text still contains the paths of removed entries.
    fn keep_short(&mut self, alloc: Global) -> Result<(), NoMemory>
        ensures { self.new ≡ self.old }
    {
        if self.text.len() > RUN_TEXT_MAX {
            let paths = Paths::of(alloc, self.rows())?;
            self.settle(paths);
        }
        Ok(())
    }

    // Replaces the text and the parts by these. `paths` must be the paths of the entries.
    fn settle(&mut self, paths: Paths)
        requires { paths ≡ keys_of self.old }
        ensures { self.new ≡ self.old }
    {
        let Paths { text, parts } = paths;
        set_parts(&mut self.rows, &parts);
        self.text = text;
    }

    // The run of these rows with these paths.
    fn of(paths: Paths, mut rows: Vec<Row>) -> Run
        requires { length paths ≡ length rows.items }
        ensures { result ≡ zip paths (nodes_of rows.items) }
    {
        let Paths { text, parts } = paths;
        set_parts(&mut rows, &parts);
        Run { text, rows }
    }

    /// Keeps the entries before this index, and returns the others as a new run. Neither run has spare room, and the text of each contains
    /// only the paths of its entries.
    pub(super) fn split_off(&mut self, alloc: Global, index: usize) -> Result<Run, NoMemory>
        requires { index ≤ length self.old }
        ensures front { OnOk result (self.new ≡ take index self.old) }
        ensures back { IfOk result (λ run. run ≡ drop index self.old) }
        ensures refused { OnErr result (self.new ≡ self.old) }
    {
        let front = Paths::of(alloc, self.rows().up_to(index))?;
        let back = Paths::of(alloc, self.rows().from(index))?;
        let rows = self.rows.split_off(index)?;
        self.rows.shrink_to_fit();
        self.settle(front);
        Ok(Run::of(back, rows))
    }
}

// Overwrites the node of the row at this index.
fn set_node(rows: &mut Vec<Row>, index: usize, node: Node)
    requires { index < length rows.old.items }
    ensures parts { parts_in_rows rows.new.items ≡ parts_in_rows rows.old.items }
    ensures nodes { nodes_of rows.new.items ≡ slice_set (nodes_of rows.old.items) index node }
{
    rows[index].node = node;
}

// Overwrites the part of the row at this index.
fn set_part(rows: &mut Vec<Row>, index: usize, part: Part)
    requires { index < length rows.old.items }
    ensures parts { parts_in_rows rows.new.items ≡ slice_set (parts_in_rows rows.old.items) index part }
    ensures nodes { nodes_of rows.new.items ≡ nodes_of rows.old.items }
{
    rows[index].part = part;
}

// Overwrites the part of each row.
fn set_parts(rows: &mut Vec<Row>, parts: &Vec<Part>)
    requires { length parts.now.items ≡ length rows.old.items }
    ensures parts { parts_in_rows rows.new.items ≡ parts.now.items }
    ensures nodes { nodes_of rows.new.items ≡ nodes_of rows.old.items }
{
    for i in 0..parts.len() {
        set_part(rows, i, parts[i]);
    }
}

// Makes room for one more row.
fn make_room(rows: &mut Vec<Row>) -> Result<(), NoMemory>
    ensures { rows.new.items ≡ rows.old.items }
{
    if rows.len() == rows.capacity() {
        rows.reserve_exact(ROOM)?;
    }
    Ok(())
}

// Inserts a row at this index. The lines of a sorted manifest come at the end, where no row is moved.
#[tactic(auto, using(crate::proofs::Runs::inserted_at_end))]
fn insert_row(rows: &mut Vec<Row>, index: usize, row: Row) -> Result<(), NoMemory>
    requires { index ≤ length rows.old.items }
    ensures done { OnOk result (rows.new.items ≡ insert rows.old.items index row) }
    ensures refused { OnErr result (rows.new.items ≡ rows.old.items) }
{
    make_room(rows)?;
    if index == rows.len() {
        rows.push(row)?;
    } else {
        rows.insert(index, row)?;
    }
    Ok(())
}
