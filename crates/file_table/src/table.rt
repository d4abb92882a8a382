//! The ELF information of files, by their paths.
ghost use Rattle.std.specs.Prelude.{◌≡◌, [], Some, IfOk, IfSome, IsTrue, OnOk, OnErr};
ghost use Rattle.std.specs.Option.{option_copied, option_map};
ghost use Rattle.std.specs.Cmp.Lexicographic.{slice_cmp};
ghost use Rattle.std.specs.List.{IsDistinct};
ghost use Rattle.std.specs.List.Sorted.{IsStrictlySortedBy};
ghost use Rattle.std.specs.Map.{keys_of};
ghost use Rattle.std.specs.Ordering.{nat_cmp};
ghost use Rattle.std.specs.Str.{bytes_eq};
ghost use Rattle.file_table.specs.Analyses.{has_name, AgreeOn, HaveNames};
ghost use Rattle.file_table.specs.Analyses.{analysed};
ghost use Rattle.file_table.specs.Table.{analysis_at, with_analysis};

use indexmap::IndexMap;
use indexmap::map::Iter;
use lib_types::{Analysis, NoMemory, Text, TextRef, are_same};
use std::alloc::Global;
use std::cell::Cell;
use std::marker::Model;

/// A copy of what a file is.
pub fn copy_of(alloc: Global, analysis: &Analysis) -> Result<Analysis, NoMemory>
    ensures { IfOk result (λ copy. copy ≡ analysis.now) }
{
    match analysis {
        Analysis::Lib { abi, soname } => Ok(Analysis::Lib {
            abi: *abi,
            soname: Text::copy_if_some(alloc, soname)?,
        }),
        Analysis::Not(defect) => Ok(Analysis::Not(*defect)),
    }
}

// The ELF information in a row, if the row has this path.
#[tactic(auto, using(crate::proofs::Rows::row_found))]
fn analysis_in<'a>(
    analyses: &'a IndexMap<Text, Analysis>,
    row: usize,
    path: &[u8],
) -> Option<&'a Analysis>
    ensures { IfSome result (λ analysis. analysis_at analyses.now.entries path.now ≡ Some analysis.now) }
{
    if row >= analyses.len() {
        return None;
    }
    let (key, analysis) = analyses.get_index(row)?;
    if are_same(key.as_bytes(), path) {
        Some(analysis)
    } else {
        None
    }
}

// Looks for a path in the row `near` and in the next row. Returns the row and its ELF information.
fn find_near<'a>(
    analyses: &'a IndexMap<Text, Analysis>,
    near: usize,
    path: &[u8],
) -> Option<(usize, &'a Analysis)>
    ensures { IfSome result (λ found. analysis_at analyses.now.entries path.now ≡ Some found.1.now) }
{
    for row in near..near.saturating_add(2) {
        if let Some(analysis) = analysis_in(analyses, row, path) {
            return Some((row, analysis));
        }
    }
    None
}

// The row of a path and its ELF information. Looks near the row `near` first, since most paths are looked up in the order
// of the rows.
fn find<'a>(
    analyses: &'a IndexMap<Text, Analysis>,
    near: usize,
    path: &[u8],
) -> Option<(usize, &'a Analysis)>
    ensures { option_map (λ found. found.1.now) result ≡ analysis_at analyses.now.entries path.now }
{
    if let Some(found) = find_near(analyses, near, path) {
        return Some(found);
    }
    let (row, _, analysis) = analyses.get_full(TextRef { bytes: path })?;
    Some((row, analysis))
}

/// A map from resolved paths to the ELF information of their files. Each soname in it is a valid name. Contracts see the map
/// as a list of pairs, with each path once.
#[derive(Drop)]
pub struct Table {
    analyses: IndexMap<Text, Analysis>,
    // the row that was found last; the next search looks near it first
    near: Cell<usize>,
}

impl Model for Table {
    ghost use Rattle.std.specs.Prelude.{IsTrue};
    ghost use Rattle.file_table.specs.Table.{Rows, have_names};

    ghost Value = { Rows };

    ghost view = { λ t. t.analyses.entries };

    ghost invariant = { λ t. IsTrue (have_names t.analyses.entries) };
}

impl Table {
    /// An empty table. Keeps the allocator and allocates no memory.
    pub fn new(alloc: Global) -> Table
        ensures { result ≡ [] }
    {
        Table {
            analyses: IndexMap::new(alloc),
            near: Cell::new(0),
        }
    }

    /// Reserves room for `count` more rows. If there is not enough memory, does nothing; rows then allocate as they are inserted.
    pub fn make_room(&mut self, count: usize)
        ensures { self.new ≡ self.old }
    {
        let _ = self.analyses.reserve(count);
    }

    /// Sets the ELF information of a path, replacing the old one.
    pub fn insert(&mut self, path: Text, analysis: Analysis) -> Result<(), NoMemory>
        requires { IsTrue (has_name analysis) }
        ensures done { OnOk result (self.new ≡ with_analysis self.old path analysis) }
        ensures refused { OnErr result (self.new ≡ self.old) }
    {
        self.analyses.insert(path, analysis)?;
        Ok(())
    }

    /// The ELF information of a path, if there is any. The time doesn't depend on the number of rows.
    pub fn get(&self, path: &[u8]) -> Option<&Analysis>
        ensures { option_copied result ≡ analysis_at self.now path.now }
    {
        let (row, analysis) = find(&self.analyses, self.near.get(), path)?;
        self.near.set(row);
        Some(analysis)
    }

    /// The paths and their ELF information, in the order in which the paths were inserted.
    pub fn iter(&self) -> Iter<'_, Text, Analysis>
        ensures rows { result ≡ self.now }
        ensures distinct { IsDistinct bytes_eq (keys_of self.now) }
    {
        self.analyses.iter()
    }

    /// A copy of the rows of these paths, in the order of the paths.
    #[tactic(auto, using(crate::proofs::Copied::none_copied))]
    pub fn copy_of(&self, alloc: Global, paths: &[Text]) -> Result<Table, NoMemory>
        requires { IsStrictlySortedBy (slice_cmp nat_cmp) paths.now }
        ensures rows { IfOk result (λ copy. keys_of copy ≡ analysed (analysis_at self.now) paths.now) }
        ensures same { IfOk result (λ copy. AgreeOn paths.now (analysis_at self.now) (analysis_at copy)) }
    {
        self.know();
        let mut copy = Table::new(alloc);
        for path in paths {
            if let Some(analysis) = self.get(path.as_bytes()) {
                copy.insert(path.copy(alloc)?, copy_of(alloc, analysis)?)?;
            }
        }
        Ok(copy)
    }

    /// Makes the invariant of a table available to contracts. Does nothing at run time.
    #[tactic(auto, using(crate::proofs::Named::names_of_rows))]
    pub fn know(&self)
        ensures { HaveNames (analysis_at self.now) }
    {
        let _ = &self.analyses;
    }
}
