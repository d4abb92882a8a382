//! The planned links.
ghost use Rattle.std.specs.Prelude.{◌≡◌, IfOk, IsTrue};
ghost use Rattle.hwcap_dirs.specs.Places.{are_dirs};
ghost use Rattle.soname_links.specs.Apply.{are_clear, is_plan};
ghost use Rattle.file_table.specs.Analyses.{HaveNames};
ghost use Rattle.soname_links.specs.Plan.{links};
ghost use Rattle.file_table.specs.Table.{analysis_at};

use crate::surveying::survey;
use crate::wanted_table::wanted_table;
use file_table::Table;
use hwcap_dirs::Dirs;
use lib_types::NoMemory;
use link_plan::Plan;
use std::alloc::Global;
use tree_face::Tree;

/// The planned links, ordered by search directory and then by the bytes of their sonames. If the search directories are
/// directories of the tree, no link clashes when they are put in this order.
#[tactic(auto, using(crate::proofs::NoOtherFiles::links_agree))]
pub fn plan(alloc: Global, tree: &Tree, dirs: &Dirs, table: &Table) -> Result<Plan, NoMemory>
    ensures links { IfOk result (λ plan. plan ≡ links (analysis_at table.now) tree.now dirs.now.places) }
    ensures is_plan { IfOk result (λ plan. IsTrue (are_dirs tree.now dirs.now.places) → IsTrue (is_plan plan)) }
    ensures clear { IfOk result (λ plan. IsTrue (are_dirs tree.now dirs.now.places) → IsTrue (are_clear tree.now plan)) }
    ensures names { HaveNames (analysis_at table.now) }
{
    table.know();
    let wanted = wanted_table(alloc, tree, dirs, table)?;
    Ok(survey(alloc, tree, dirs, &wanted)?.plan)
}
