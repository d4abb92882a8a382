//! The results of an update's search.
ghost use Rattle.std.specs.Prelude.{◌≡◌, ◌<◌, ℕ, IfOk, IsErrOf, IsTrue, OnOk};
ghost use Rattle.elf_dynamic.specs.Begun.{ReadsKeys};
ghost use Rattle.hwcap_dirs.specs.Places.{are_spelled};
ghost use Rattle.place_libraries.specs.Best.{bests_of};
ghost use Rattle.library_files.specs.Search.{followed};
ghost use Rattle.file_table.specs.Table.{analysis_at};
ghost use Rattle.image_tree.specs.Tree.{IsTree};
ghost use Rattle.image_tree.specs.declared.tree.TheConstants.{NODES_MAX};
ghost use Rattle.planned_tree.specs.Search.{IsSearchedAlike};
ghost use Rattle.soname_links.specs.Apply.{is_plan, nodes_with};
ghost use Rattle.soname_links.specs.Settled.{IsSettled};
ghost use Rattle.aux_cache.specs.Stamps.{AreRecordable};
ghost use Rattle.tree_face.specs.Known.{IfKnown};
ghost use Rattle.library_search.specs.Faults.{find_ending};
ghost use Rattle.library_search.specs.Found.{HasTooManyNodes, IsFound, ReadsFinding};
ghost use Rattle.library_search.specs.Judged.{judged};
ghost use Rattle.library_search.specs.Ldconfig.{places_in, info_wanted};
ghost use Rattle.library_search.specs.Stages.{HasFollowed, IsSearchOf, IsPlannedFor, opened_planned, planned_by};

use crate::fault::FindFault;
use crate::following::{Followed, follow_links};
use crate::judging::judge;
use crate::search::{Search, search_image};
use aux_cache::Stamps;
use hwcap_dirs::Scope;
use planned_tree::plan_links;
use soname_links::Survey;
use std::alloc::Global;
use tree_face::{Store, Tree};

/// The results of an update's search. `files` has all library files. Those that the loader can't search for count as no libraries.
#[derive(Drop)]
pub struct Found {
    pub search: Search,
    pub links: Survey,
    pub followed: Followed,
}

/// Plans the links for a search of a tree, puts them into the tree and follows the links with library names. It opens a link's target only
/// if the file's identity has no stamp.
///
/// The tree may have more nodes than the one that was searched, as long as the same holds of its search directories.
pub fn plan_found<S: Store>(
    alloc: Global,
    scope: &Scope,
    search: Search,
    tree: &mut Tree,
    store: &mut S,
    loaded: &Stamps,
) -> Result<Found, FindFault>
    requires recordable { AreRecordable loaded.now }
    requires looked { IsSearchOf scope.now tree.old search }
    ensures planned { IfOk result (λ found. IsPlannedFor loaded.now search tree.old found tree.new) }
    ensures followed { IfOk result (λ found. IfKnown (S.state store.old).held (λ held. HasFollowed scope.now held loaded.now search found tree.new)) }
    ensures valid { IfOk result (λ found. IsTrue (is_plan found.links.plan)) }
    ensures is_tree { OnOk result (IsTree tree.new) }
    ensures links { IfOk result (λ found. found.followed.links ≡ followed tree.new found.search.dirs.places) }
    ensures bests { IfOk result (λ found. found.links.bests ≡ bests_of (analysis_at found.search.files.table) tree.new found.search.dirs.places) }
    ensures too_large { (nodes : ℕ) → IsErrOf result (FindFault.TooLarge nodes) → (nodes ≡ nodes_with tree.old (planned_by search tree.old)) × (NODES_MAX < nodes) }
    ensures reads { ReadsKeys (opened_planned loaded.now search tree.old) (find_ending result) (S.state store.old) (S.state store.new) }
{
    let mut searched = search;
    let links = plan_links(alloc, tree, &searched.dirs, &searched.files.table)?;
    let followed = follow_links(
        alloc,
        tree,
        store,
        loaded,
        &searched.dirs,
        &mut searched.files,
    )?;
    judge(alloc, scope, &mut searched.files.table)?;
    Ok(Found {
        search: searched,
        links,
        followed,
    })
}

/// Searches an image, and puts the planned links into its tree. It opens a library file only if the file's identity has no stamp: no
/// loaded one, and none from a file that was read before.
pub fn find<S: Store>(
    alloc: Global,
    scope: &Scope,
    tree: &mut Tree,
    store: &mut S,
    loaded: &Stamps,
) -> Result<Found, FindFault>
    requires recordable { AreRecordable loaded.now }
    ensures found { IfOk result (λ found. IfKnown (S.state store.old).held (λ held. IsFound scope.now held tree.old loaded.now found tree.new)) }
    ensures valid { IfOk result (λ found. IsTrue (is_plan found.links.plan)) }
    ensures is_tree { OnOk result (IsTree tree.new) }
    ensures alike { OnOk result (IsSearchedAlike tree.old tree.new) }
    ensures settled { OnOk result (IfKnown (S.state store.old).held
        (λ held. IsSettled (judged scope.now (info_wanted scope.now held tree.old loaded.now)) tree.old (places_in scope.now held tree.old) tree.new)) }
    ensures links { IfOk result (λ found. found.followed.links ≡ followed tree.new found.search.dirs.places) }
    ensures bests { IfOk result (λ found. found.links.bests ≡ bests_of (analysis_at found.search.files.table) tree.new found.search.dirs.places) }
    ensures spelled { IfOk result (λ found. IsTrue (are_spelled found.search.dirs.places)) }
    ensures too_large { (nodes : ℕ) → IsErrOf result (FindFault.TooLarge nodes) →
        IfKnown (S.state store.old).held (λ held. HasTooManyNodes scope.now held tree.old loaded.now nodes) }
    ensures reads { ReadsFinding scope.now tree.old loaded.now (find_ending result) (S.state store.old) (S.state store.new) }
{
    let search = search_image(alloc, scope, tree, store, loaded)?;
    tree.know();
    search.files.table.know();
    plan_found(alloc, scope, search, tree, store, loaded)
}
