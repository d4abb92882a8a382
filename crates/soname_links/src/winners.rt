//! The cache entries of a tree, before its links are followed and its libraries compared.
ghost use Rattle.std.specs.Prelude.{◌≤◌, All, IfErr, IfOk, IsTrue, length};
ghost use Rattle.cache_entries.specs.Entries.{found, is_fit, AreEntriesOf, IsEntryFault, IsOnlyListOf};
ghost use Rattle.cache_layout.specs.declared.limits.TheConstants.{ENTRIES_MAX};
ghost use Rattle.hwcap_dirs.specs.Places.{are_spelled};
ghost use Rattle.file_table.specs.Table.{analysis_at};

use crate::surveying::survey;
use crate::wanted_table::wanted_table;
use cache_entries::{EntryFault, entries_by};
use file_table::Table;
use hwcap_dirs::Dirs;
use lib_types::Entries;
use library_files::follow;
use std::alloc::Global;
use tree_face::Tree;

/// The cache entries, one for each search directory and soname with a best library. The tree must have all planned links.
#[tactic(auto, using(place_libraries::proofs::NoOtherFiles::bests_agree))]
pub fn entries(
    alloc: Global,
    tree: &Tree,
    dirs: &Dirs,
    table: &Table,
) -> Result<Entries, EntryFault>
    ensures entries { IfOk result (AreEntriesOf (found (analysis_at table.now) tree.now dirs.now.places)) }
    ensures single { IfOk result (IsOnlyListOf (found (analysis_at table.now) tree.now dirs.now.places)) }
    ensures fit { IfOk result (λ entries. IsTrue (are_spelled dirs.now.places) → All (λ entry. IsTrue (is_fit entry)) entries) }
    ensures few { IfOk result (λ _. length (found (analysis_at table.now) tree.now dirs.now.places) ≤ ENTRIES_MAX) }
    ensures fault { IfErr result (IsEntryFault (found (analysis_at table.now) tree.now dirs.now.places)) }
{
    let wanted = wanted_table(alloc, tree, dirs, table)?;
    let survey = survey(alloc, tree, dirs, &wanted)?;
    let links = follow(alloc, tree, dirs)?;
    entries_by(alloc, tree, dirs, table, &survey.bests, &links)
}
