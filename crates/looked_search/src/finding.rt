//! The search of a directory.
ghost use Rattle.std.specs.Prelude.{◌≡◌, ℕ, IfErr, IfOk, IsErrOf, IsTrue, true};
ghost use Rattle.aux_cache.specs.Stamps.{AreRecordable};
ghost use Rattle.file_table.specs.Table.{analysis_at};
ghost use Rattle.hwcap_dirs.specs.Places.{are_dirs, are_spelled};
ghost use Rattle.image_tree.specs.Tree.{IsTree};
ghost use Rattle.library_files.specs.Search.{followed};
ghost use Rattle.library_search.specs.declared.fault.FindFault.TheVariants as finding;
ghost use Rattle.looked_search.specs.Faults.{ReadsFolder, is_of_looking};
ghost use Rattle.looked_search.specs.Finding.{AddsLinks};
ghost use Rattle.looked_search.specs.Opened.{HasNoRoomFor, OpensFiles, search_ending};
ghost use Rattle.place_libraries.specs.Best.{bests_of};
ghost use Rattle.seen_update.specs.Found.{FindsOf};
ghost use Rattle.soname_links.specs.Apply.{is_plan};
ghost use Rattle.tree_face.specs.Known.{IfKnown};

use crate::fault::SearchFault;
use crate::planning::search_part;
use crate::sonames::add_sonames;
use crate::tree::see_tree;
use aux_cache::Stamps;
use hwcap_dirs::Scope;
use library_files::follow;
use library_search::{Followed, Found};
use looked_tree::LookedPart;
use root_folder::Folder;
use std::alloc::Global;
use tree_face::{Store, Tree};

/// The results of a directory's search, and the part of its tree that was looked at, with the planned links.
#[derive(Drop)]
pub struct FoundPart {
    pub found: Found,
    pub tree: Tree,
}

// Adds the links with the names of sonames that aren't library names, and follows the links with library names again.
fn with_sonames<F: Folder>(
    alloc: Global,
    folder: &mut F,
    found: Found,
    tree: Tree,
) -> Result<FoundPart, SearchFault>
    requires dirs { IsTrue (are_dirs tree found.search.dirs.places) }
    requires bests { found.links.bests ≡ bests_of (analysis_at found.search.files.table) tree found.search.dirs.places }
    ensures adds { IfOk result (AddsLinks (F.state folder.old) (F.state folder.new) found tree) }
    ensures links { IfOk result (λ part. part.found.followed.links ≡ followed part.tree part.found.search.dirs.places) }
    ensures bests { IfOk result (λ part. part.found.links.bests ≡ bests_of (analysis_at part.found.search.files.table) part.tree part.found.search.dirs.places) }
    ensures reads { ReadsFolder result (F.state folder.old) (F.state folder.new) }
    ensures others { IfErr result (λ fault. is_of_looking fault ≡ true) }
{
    let mut tree = tree;
    let search = found.search;
    let links = found.links;
    let before = found.followed;
    let dangling = before.dangling;
    add_sonames(alloc, folder, &search.dirs, &search.files.table, &mut tree)?;
    tree.know();
    let followed = Followed {
        links: follow(alloc, &tree, &search.dirs)?,
        dangling,
    };
    let found = Found {
        search,
        links,
        followed,
    };
    Ok(FoundPart { found, tree })
}

/// Searches a directory, and puts the planned links into the part of its tree that was looked at. What it finds is what a search of the
/// whole tree finds. It looks up only what the conf files, the search directories, and the libraries, links and sonames in them need.
#[tactic(auto, using(crate::proofs::Reading::folder_on))]
pub fn find_part<F: Folder, S: Store>(
    alloc: Global,
    scope: &Scope,
    folder: &mut F,
    store: &mut S,
    loaded: &Stamps,
) -> Result<FoundPart, SearchFault>
    requires recordable { AreRecordable loaded.now }
    ensures finds { IfOk result (λ part. IfKnown (F.state folder.old).contents (λ c. IfKnown (S.state store.old).held
        (λ held. FindsOf scope.now held c.now loaded.now part.found part.tree))) }
    ensures valid { IfOk result (λ part. IsTrue (is_plan part.found.links.plan)) }
    ensures spelled { IfOk result (λ part. IsTrue (are_spelled part.found.search.dirs.places)) }
    ensures links { IfOk result (λ part. part.found.followed.links ≡ followed part.tree part.found.search.dirs.places) }
    ensures bests { IfOk result (λ part. part.found.links.bests ≡ bests_of (analysis_at part.found.search.files.table) part.tree part.found.search.dirs.places) }
    ensures is_tree { IfOk result (λ part. IsTree part.tree) }
    ensures reads { ReadsFolder result (F.state folder.old) (F.state folder.new) }
    ensures opens { OpensFiles scope.now loaded.now (search_ending result) (F.state folder.old) (S.state store.old) (S.state store.new) }
    ensures too_large { (nodes : ℕ) → IsErrOf result (SearchFault.Find (finding.TooLarge nodes)) →
        HasNoRoomFor scope.now loaded.now nodes (F.state folder.old) (S.state store.old) }
{
    let mut looked = LookedPart::new(alloc);
    let conf = see_tree(alloc, scope, &mut looked, folder, store)?;
    let mut tree = looked.into_tree();
    let found = search_part(alloc, scope, conf, &mut tree, store, loaded)?;
    with_sonames(alloc, folder, found, tree)
}
