//! The links that are planned, and the tree with them.
ghost use Rattle.std.specs.Prelude.{◌≡◌, ◌<◌, ◌≤◌, ℕ, IfOk, IsErrOf, IsTrue};
ghost use Rattle.hwcap_dirs.specs.Places.{are_dirs};
ghost use Rattle.place_libraries.specs.Best.{bests_of};
ghost use Rattle.place_libraries.specs.Rows.{AreOfPlaces};
ghost use Rattle.soname_links.specs.Apply.{is_plan, nodes_with};
ghost use Rattle.soname_links.specs.Marks.{blocked, mixed};
ghost use Rattle.soname_links.specs.Plan.{links, with_links};
ghost use Rattle.soname_links.specs.Settled.{IsSettled};
ghost use Rattle.image_tree.specs.Tree.{IsTree};
ghost use Rattle.image_tree.specs.declared.tree.TheConstants.{NODES_MAX};
ghost use Rattle.planned_tree.specs.Search.{IsSearchedAlike};
ghost use Rattle.file_table.specs.Table.{analysis_at};

use file_table::Table;
use hwcap_dirs::Dirs;
use soname_links::{ApplyFault, Survey, apply, survey};
use std::alloc::Global;
use tree_face::Tree;

/// Plans the links of a tree and puts them into it.
///
/// Whichever places they were planned for, conf files, directories and files of the tree are found as before, and those places
/// want no further link.
pub fn plan_links(
    alloc: Global,
    tree: &mut Tree,
    dirs: &Dirs,
    table: &Table,
) -> Result<Survey, ApplyFault>
    requires dirs { IsTrue (are_dirs tree.old dirs.now.places) }
    requires rows { AreOfPlaces tree.old dirs.now.places table.now }
    ensures plan { IfOk result (λ found. found.plan ≡ links (analysis_at table.now) tree.old dirs.now.places) }
    ensures valid { IfOk result (λ found. IsTrue (is_plan found.plan)) }
    ensures tree { IfOk result (λ found. tree.new ≡ with_links tree.old (links (analysis_at table.now) tree.old dirs.now.places)) }
    ensures alike { IfOk result (λ found. IsSearchedAlike tree.old tree.new) }
    ensures settled { IfOk result (λ found. IsSettled (analysis_at table.now) tree.old dirs.now.places tree.new) }
    ensures few { IfOk result (λ found. nodes_with tree.old (links (analysis_at table.now) tree.old dirs.now.places) ≤ NODES_MAX) }
    ensures is_tree { IfOk result (λ found. IsTree tree.new) }
    ensures blocked { IfOk result (λ found. found.blocked ≡ blocked (analysis_at table.now) tree.old dirs.now.places) }
    ensures mixed { IfOk result (λ found. found.mixed ≡ mixed (analysis_at table.now) tree.old dirs.now.places) }
    ensures bests { IfOk result (λ found. found.bests ≡ bests_of (analysis_at table.now) tree.old dirs.now.places) }
    ensures too_large { (nodes : ℕ) → IsErrOf result (ApplyFault.TooLarge nodes) →
        (nodes ≡ nodes_with tree.old (links (analysis_at table.now) tree.old dirs.now.places)) × (NODES_MAX < nodes) }
{
    tree.know();
    let found = survey(alloc, tree, dirs, table)?;
    apply(alloc, tree, &found.plan)?;
    tree.know();
    Ok(found)
}
