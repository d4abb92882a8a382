//! Looks up what a search needs before it reads the libraries.
ghost use Rattle.std.specs.Prelude.{◌≡◌, IfErr, IfOk, IsErrOf, OnOk, true};
ghost use Rattle.hwcap_dirs.specs.Places.{places};
ghost use Rattle.looked_conf.specs.Conf.{IfLooked};
ghost use Rattle.looked_places.specs.Listed.{places_listed};
ghost use Rattle.looked_search.specs.Faults.{ReadsFolder, is_of_seeing};
ghost use Rattle.looked_search.specs.Opened.{OpensConf, search_ending};
ghost use Rattle.looked_search.specs.Tree.{SeesTree};
ghost use Rattle.looked_tree.specs.Looked.{Loads};
ghost use Rattle.root_tree.specs.ReadTree.{ReadsOn};
ghost use Rattle.root_tree.specs.declared.fault.TreeRead.TheVariants as reads;
ghost use Rattle.seen_places.specs.Looked.{places_looked};
ghost use Rattle.seen_tree.specs.Seen.{IsFull};

use crate::fault::SearchFault;
use crate::source::see_source;
use hwcap_dirs::{Dirs, Scope, order};
use ldso_conf::Conf;
use lib_types::Texts;
use looked_places::{see_libraries, see_places};
use looked_tree::LookedPart;
use root_folder::Folder;
use root_tree::TreeRead;
use std::alloc::Global;
use tree_face::Store;

// Looks up the search directories, and orders them.
fn see_dirs<F: Folder>(
    alloc: Global,
    looked: &mut LookedPart,
    folder: &mut F,
    scope: &Scope,
    conf: &Texts,
) -> Result<Dirs, TreeRead>
    ensures loads { OnOk result (Loads (λ t. places_looked scope.now t conf.now) (λ t. places_listed scope.now t conf.now) (F.state folder.old) (F.state folder.new) looked.old looked.new) }
    ensures dirs { IfOk result (λ dirs. IfLooked (F.state folder.old) looked.old (λ t. dirs.places ≡ places scope.now t conf.now)) }
    ensures full { IsErrOf result reads.TooLarge → IsFull looked.new.seen }
    ensures reads { ReadsOn result (F.state folder.old) (F.state folder.new) }
{
    see_places(alloc, looked, folder, scope, conf)?;
    let dirs = order(alloc, scope, looked.tree(), conf)?;
    Ok(dirs)
}

/// Reads the conf files, and looks up what they, the search directories and the libraries in them need.
#[tactic(auto, using(crate::proofs::Reading::look_failed, crate::proofs::Reading::tree_failed))]
pub(crate) fn see_tree<F: Folder, S: Store>(
    alloc: Global,
    scope: &Scope,
    looked: &mut LookedPart,
    folder: &mut F,
    store: &mut S,
) -> Result<Conf, SearchFault>
    ensures sees { IfOk result (λ conf. SeesTree scope.now conf (F.state folder.old) (F.state folder.new) (S.state store.old) (S.state store.new) looked.old looked.new) }
    ensures opens { OpensConf scope.now (search_ending result) (F.state folder.old) looked.old (S.state store.old) (S.state store.new) }
    ensures reads { ReadsFolder result (F.state folder.old) (F.state folder.new) }
    ensures others { IfErr result (λ fault. is_of_seeing fault ≡ true) }
{
    let conf = see_source(alloc, scope, looked, folder, store)?;
    let dirs = see_dirs(alloc, looked, folder, scope, &conf.dirs)?;
    see_libraries(alloc, looked, folder, &dirs.places)?;
    Ok(conf)
}
