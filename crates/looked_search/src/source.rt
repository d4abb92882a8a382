//! The directories that the conf files of a directory name.
ghost use Rattle.library_search.specs.Ldconfig.{conf_of};
ghost use Rattle.looked_conf.specs.Conf.{SeesConf};

use hwcap_dirs::Scope;
use ldso_conf::{CONF_PATH, Conf, given_dirs};
use library_search::conf_or;
use looked_conf::{LookFault, see_conf};
use looked_tree::LookedPart;
use root_folder::Folder;
use std::alloc::Global;
use tree_face::Store;

/// Reads the conf files of a directory, unless the command line gives directories. Looks up only what the reading needs.
#[tactic(auto, using(crate::proofs::GivenDirs::given_fails))]
pub(crate) fn see_source<F: Folder, S: Store>(
    alloc: Global,
    scope: &Scope,
    looked: &mut LookedPart,
    folder: &mut F,
    store: &mut S,
) -> Result<Conf, LookFault>
    ensures { SeesConf (conf_of scope.now) result (F.state folder.old) (F.state folder.new) (S.state store.old) (S.state store.new) looked.old looked.new }
{
    match scope {
        Scope::Image => see_conf(alloc, CONF_PATH, looked, folder, store),
        Scope::Root { conf } => see_conf(alloc, conf_or(conf), looked, folder, store),
        Scope::Only { dirs } => match given_dirs(alloc, dirs) {
            Ok(conf) => Ok(conf),
            Err(_) => Err(LookFault::NoMemory),
        },
    }
}
