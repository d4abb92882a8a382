//! The rows of a run. A row has the range of its path in a text, and its node.
ghost use Rattle.std.specs.Prelude.{◌≡◌, ◌<◌, ◌≤◌, ◌==◌, ◌∷◌, [], IfOk, IfErr, IfSome, IsTrue, MatchOption, length, drop, take, slice_index_or};
ghost use Rattle.std.specs.declared.cmp.Ordering.TheVariants.{Equal};
ghost use Rattle.image_tree.specs.Paths.{path_cmp};
ghost use Rattle.image_tree.specs.Index.{IsIndexOf, IsGapFor};
ghost use Rattle.image_tree.specs.OneText.{entry_in};
ghost use Rattle.lib_types.specs.Part.{IsWithin};
ghost use Rattle.image_tree.specs.Runs.{begins_by};
ghost use Rattle.image_tree.specs.Tree.{IsPathSorted};

use crate::node::Node;
use crate::path::compare;
use lib_types::{Part, are_same};
use std::cmp::Ordering;
use std::marker::Model;

/// The range of an entry's path in the text, and the node.
#[derive(Drop)]
pub(super) struct Row {
    pub(super) part: Part,
    pub(super) node: Node,
}

/// A path and its node, borrowed from a tree.
#[derive(Clone, Copy)]
pub(super) struct PathEntry<'a> {
    pub(super) path: &'a [u8],
    pub(super) node: &'a Node,
}

// The entry of a row.
fn entry_in<'a>(text: &'a [u8], row: &'a Row) -> PathEntry<'a>
    requires { IsWithin (length text.now) row.now.part }
    ensures { (result.path.now, result.node.now) ≡ entry_in text.now row.now }
{
    PathEntry {
        path: row.part.bytes_in(text),
        node: &row.node,
    }
}

// The rows from this index on.
fn rows_from(rows: &[Row], index: usize) -> &[Row]
    requires { index ≤ length rows.now }
    ensures { result.now ≡ drop index rows.now }
{
    &rows[index..]
}

/// Rows, and the text that contains their paths. In contracts this is the list of entries.
#[derive(Drop)]
pub(super) struct Rows<'a> {
    pub(super) text: &'a [u8],
    pub(super) rows: &'a [Row],
}

impl<'a> Model for Rows<'a> {
    ghost use Rattle.std.specs.Prelude.{length};
    ghost use Rattle.image_tree.specs.OneText.{entries_in, parts_in_rows, AreWithin};
    ghost use Rattle.image_tree.specs.Tree.{Nodes};

    ghost Value = { Nodes };

    ghost view = { λ r. entries_in r.text.now r.rows.now };

    ghost invariant = { λ r. AreWithin (length r.text.now) (parts_in_rows r.rows.now) };
}

impl<'a> Rows<'a> {
    /// No rows.
    pub(super) fn none() -> Rows<'a>
        ensures { result ≡ [] }
    {
        Rows {
            text: b"",
            rows: &[],
        }
    }

    /// The number of rows.
    pub(super) fn len(&self) -> usize
        ensures { result ≡ length self.now }
    {
        self.rows.len()
    }

    /// Whether the list of rows is empty.
    pub(super) fn is_empty(&self) -> bool
        ensures { result ≡ (length self.now == 0) }
    {
        self.rows.is_empty()
    }

    /// The length of the text in bytes. It can have bytes that are not part of a path.
    pub(super) fn text_len(&self) -> usize {
        self.text.len()
    }

    /// The entry at this index.
    pub(super) fn get(&self, index: usize) -> PathEntry<'a>
        requires { index < length self.now }
        ensures { (d : _) → (result.path.now, result.node.now) ≡ slice_index_or self.now index d }
    {
        entry_in(self.text, &self.rows[index])
    }

    /// The rows before this index.
    #[tactic(auto, using(crate::proofs::OneText::entries_taken))]
    pub(super) fn up_to(&self, index: usize) -> Rows<'a>
        requires { index ≤ length self.now }
        ensures { result ≡ take index self.now }
    {
        Rows {
            text: self.text,
            rows: &self.rows[..index],
        }
    }

    /// The rows from this index on.
    #[tactic(auto, using(crate::proofs::OneText::entries_dropped))]
    pub(super) fn from(&self, index: usize) -> Rows<'a>
        requires { index ≤ length self.now }
        ensures { result ≡ drop index self.now }
    {
        Rows {
            text: self.text,
            rows: rows_from(self.rows, index),
        }
    }

    /// The first entry and the rows after it.
    pub(super) fn split_first(&self) -> Option<(PathEntry<'a>, Rows<'a>)>
        ensures { MatchOption result (self.now ≡ []) (λ r. self.now ≡ (r.0.path.now, r.0.node.now) ∷ r.1) }
    {
        let (row, rows) = self.rows.split_first()?;
        let text = self.text;
        Some((entry_in(text, row), Rows { text, rows }))
    }

    /// Whether the first entry's path is `path` or comes before it. True if the list is empty.
    pub(super) fn begin_by(&self, path: &[u8]) -> bool
        ensures { result ≡ begins_by path.now self.now }
    {
        match self.split_first() {
            Some((first, _)) => !compare(first.path, path).is_gt(),
            None => true,
        }
    }

    /// The index of the path's entry, or the index of its gap, found by a binary search.
    pub(super) fn search(&self, path: &[u8]) -> Result<usize, usize>
        requires { IsPathSorted self.now }
        ensures found { IfOk result (IsIndexOf self.now path.now) }
        ensures absent { IfErr result (IsGapFor self.now path.now) }
    {
        let mut low = 0;
        let mut high = self.len();
        while low < high {
            let middle = low + (high - low) / 2;
            match compare(self.get(middle).path, path) {
                Ordering::Less => low = middle + 1,
                Ordering::Equal => return Ok(middle),
                Ordering::Greater => high = middle,
            }
        }
        Err(low)
    }

    /// The index of the path's entry, if it is one of the next `NEAR` entries from this index on.
    pub(super) fn find_near(&self, from: usize, path: &[u8]) -> Option<usize>
        ensures { IfSome result (IsIndexOf self.now path.now) }
    {
        let end = self.len().min(from.saturating_add(NEAR));
        for i in from..end {
            if has_path(self.get(i), path) {
                return Some(i);
            }
        }
        None
    }
}

impl<'a> Iterator for Rows<'a> {
    ghost use Rattle.std.specs.Iterator.{YieldsFirstBy, item_count};

    type Item = PathEntry<'a>;

    ghost next_gives = { YieldsFirstBy (λ x. (x.path.now, x.node.now)) (λ s. s) };

    ghost remaining = { item_count (λ s. s) };

    fn next(&mut self) -> Option<PathEntry<'a>> {
        let (row, rows) = self.rows.split_first()?;
        self.rows = rows;
        Some(entry_in(self.text, row))
    }
}

// The number of entries that are tried one after another before the binary search.
const NEAR: usize = 8;

// Whether the entry has the path. Most other paths differ in length, so this is cheaper than comparing their order.
#[tactic(auto, using(crate::proofs::Order::same_paths))]
fn has_path(entry: PathEntry<'_>, path: &[u8]) -> bool
    ensures { IsTrue result → path_cmp entry.entry.path.now path.now ≡ Equal }
{
    are_same(entry.path, path)
}
