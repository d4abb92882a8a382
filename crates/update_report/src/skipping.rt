//! The files with library names that aren't usable shared libraries.
ghost use Rattle.std.specs.Prelude.{◌≡◌, IfOk, OnOk, map};
ghost use Rattle.std.specs.List.{filter_map};
ghost use Rattle.std.specs.Map.{keys_of};
ghost use Rattle.string_pool.specs.Order.{ascending};
ghost use Rattle.update_report.specs.ByPath.{skip_of, with_row};
ghost use Rattle.update_report.specs.Skips.{skip_at};
ghost use Rattle.file_table.specs.Table.{analysis_at};

use crate::kinds::{Skipped, Skips};
use file_table::Table;
use lib_types::{Analysis, Defect, NoMemory, Seq, Text, Texts};
use std::alloc::Global;
use std::collections::BTreeMap;

// The skip record of the file at a path, if the file has a defect.
fn skip_at(alloc: Global, table: &Table, path: &Text) -> Result<Option<Skipped>, NoMemory>
    ensures { IfOk result (λ skipped. skipped ≡ skip_at (analysis_at table.now) path.now) }
{
    match table.get(path.as_bytes()) {
        Some(Analysis::Not(defect)) => Ok(Some(Skipped {
            path: Text::copy_of(alloc, path.as_bytes())?,
            defect: *defect,
        })),
        Some(Analysis::Lib { .. }) | None => Ok(None),
    }
}

/// Those of the files that aren't usable shared libraries.
pub fn skips(alloc: Global, table: &Table, files: &Texts) -> Result<Skips, NoMemory>
    ensures { IfOk result (λ skips. skips ≡ filter_map (skip_at (analysis_at table.now)) files.now) }
{
    let mut skips = Seq::new(alloc);
    for path in files.as_slice() {
        if let Some(skipped) = skip_at(alloc, table, path)? {
            skips.push(skipped)?;
        }
    }
    Ok(skips)
}

// Adds the defect of a file, if it has one.
fn add_defect(
    alloc: Global,
    path: &Text,
    analysis: &Analysis,
    found: &mut BTreeMap<Text, Defect>,
) -> Result<(), NoMemory>
    ensures { OnOk result (found.new.entries ≡ with_row found.old.entries (path.now, analysis.now)) }
{
    if let Analysis::Not(defect) = analysis {
        found.insert(Text::copy_of(alloc, path.as_bytes())?, *defect)?;
    }
    Ok(())
}

// The files of a table with defects, each with its defect. Most rows are libraries, so few paths are copied.
#[tactic(auto, using(crate::proofs::ByPath::all_in_order))]
fn by_path(alloc: Global, table: &Table) -> Result<BTreeMap<Text, Defect>, NoMemory>
    ensures { IfOk result (λ found. map skip_of found.entries ≡ filter_map (skip_at (analysis_at table.now)) (ascending (keys_of table.now))) }
{
    let mut found = BTreeMap::new(alloc);
    for (path, analysis) in table.iter() {
        add_defect(alloc, path, analysis, &mut found)?;
    }
    Ok(found)
}

// Turns the map into a list, in the byte order of the paths.
fn listed(alloc: Global, found: BTreeMap<Text, Defect>) -> Result<Skips, NoMemory>
    ensures { IfOk result (λ skips. skips ≡ map skip_of found.entries) }
{
    let mut skips = Seq::new(alloc);
    for (path, defect) in found {
        skips.push(Skipped { path, defect })?;
    }
    Ok(skips)
}

/// All files of a table that aren't usable shared libraries, in the byte order of their paths.
pub fn skips_in(alloc: Global, table: &Table) -> Result<Skips, NoMemory>
    ensures { IfOk result (λ skips. skips ≡ filter_map (skip_at (analysis_at table.now)) (ascending (keys_of table.now))) }
{
    listed(alloc, by_path(alloc, table)?)
}
