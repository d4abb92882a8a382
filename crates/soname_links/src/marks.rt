//! The sonames to report.
ghost use Rattle.std.specs.Prelude.{◌≡◌, IfOk};
ghost use Rattle.soname_links.specs.Marks.{blocked, mixed};
ghost use Rattle.file_table.specs.Table.{analysis_at};

use crate::surveying::survey;
use crate::wanted_table::wanted_table;
use file_table::Table;
use hwcap_dirs::Dirs;
use lib_types::NoMemory;
use link_plan::Marks;
use std::alloc::Global;
use tree_face::Tree;

/// The sonames for which a link is wanted but can't be created, ordered by search directory and then by their bytes.
#[tactic(auto, using(crate::proofs::NoOtherFiles::blocked_agree))]
pub fn blocked(alloc: Global, tree: &Tree, dirs: &Dirs, table: &Table) -> Result<Marks, NoMemory>
    ensures { IfOk result (λ marks. marks ≡ blocked (analysis_at table.now) tree.now dirs.now.places) }
{
    let wanted = wanted_table(alloc, tree, dirs, table)?;
    Ok(survey(alloc, tree, dirs, &wanted)?.blocked)
}

/// The sonames that have different ABIs in one search directory, ordered by search directory and then by their bytes.
#[tactic(auto, using(crate::proofs::NoOtherFiles::mixed_agree))]
pub fn mixed(alloc: Global, tree: &Tree, dirs: &Dirs, table: &Table) -> Result<Marks, NoMemory>
    ensures { IfOk result (λ marks. marks ≡ mixed (analysis_at table.now) tree.now dirs.now.places) }
{
    let wanted = wanted_table(alloc, tree, dirs, table)?;
    Ok(survey(alloc, tree, dirs, &wanted)?.mixed)
}
