//! The rows of a table for the files with library names in the search directories, without all other rows.
ghost use Rattle.std.specs.Prelude.{IfOk};
ghost use Rattle.file_table.specs.Analyses.{AgreeOn};
ghost use Rattle.place_libraries.specs.Rows.{AreOfPlaces};
ghost use Rattle.library_files.specs.Search.{wanted};
ghost use Rattle.file_table.specs.Table.{analysis_at};

use file_table::Table;
use hwcap_dirs::Dirs;
use lib_types::NoMemory;
use library_files::wanted;
use std::alloc::Global;
use tree_face::Tree;

/// Copies these rows of a table, because a survey goes through all rows of its table.
#[tactic(auto, using(crate::proofs::WantedRows::in_order, crate::proofs::WantedRows::of_places))]
pub(crate) fn wanted_table(
    alloc: Global,
    tree: &Tree,
    dirs: &Dirs,
    table: &Table,
) -> Result<Table, NoMemory>
    ensures rows { IfOk result (λ copy. AreOfPlaces tree.now dirs.now.places copy) }
    ensures agree { IfOk result (λ copy. AgreeOn (wanted tree.now dirs.now.places) (analysis_at table.now) (analysis_at copy)) }
{
    let paths = wanted(alloc, tree, dirs)?;
    let copy = table.copy_of(alloc, paths.as_slice())?;
    Ok(copy)
}
