//! The search of a part of a directory's tree.
ghost use Rattle.std.specs.Prelude.{◌≡◌, ◌≤◌, ℕ, All, IfOk, IsErrOf, IsTrue, length};
ghost use Rattle.aux_cache.specs.Stamps.{AreRecordable};
ghost use Rattle.file_table.specs.Table.{analysis_at};
ghost use Rattle.hwcap_dirs.specs.Places.{are_dirs};
ghost use Rattle.image_tree.specs.declared.path.TheConstants.{PATH_MAX};
ghost use Rattle.library_files.specs.Search.{followed};
ghost use Rattle.looked_search.specs.Finding.{SearchesPart};
ghost use Rattle.looked_search.specs.Opened.{HasNoRoom, OpensPart};
ghost use Rattle.place_libraries.specs.Best.{bests_of};
ghost use Rattle.soname_links.specs.Apply.{is_plan};

use aux_cache::Stamps;
use hwcap_dirs::Scope;
use ldso_conf::Conf;
use library_search::{FindFault, Found, plan_found, search_places};
use std::alloc::Global;
use tree_face::{Store, Tree};

/// Searches a part of a directory's tree for the libraries in these directories, and puts the planned links into the part.
pub(crate) fn search_part<S: Store>(
    alloc: Global,
    scope: &Scope,
    conf: Conf,
    part: &mut Tree,
    store: &mut S,
    loaded: &Stamps,
) -> Result<Found, FindFault>
    requires short { All (λ dir. length dir ≤ PATH_MAX) conf.dirs }
    requires recordable { AreRecordable loaded.now }
    ensures searches { IfOk result (λ found. SearchesPart scope.now loaded.now conf part.old (S.state store.old) found part.new) }
    ensures dirs { IfOk result (λ found. IsTrue (are_dirs part.new found.search.dirs.places)) }
    ensures valid { IfOk result (λ found. IsTrue (is_plan found.links.plan)) }
    ensures links { IfOk result (λ found. found.followed.links ≡ followed part.new found.search.dirs.places) }
    ensures bests { IfOk result (λ found. found.links.bests ≡ bests_of (analysis_at found.search.files.table) part.new found.search.dirs.places) }
    ensures opens { OpensPart scope.now loaded.now conf part.old result (S.state store.old) (S.state store.new) }
    ensures too_large { (nodes : ℕ) → IsErrOf result (FindFault.TooLarge nodes) → HasNoRoom scope.now loaded.now conf part.old (S.state store.old).held nodes }
{
    part.know();
    let search = search_places(alloc, scope, conf, part, store, loaded)?;
    search.files.table.know();
    let found = plan_found(alloc, scope, search, part, store, loaded)?;
    found.search.files.table.know();
    Ok(found)
}
