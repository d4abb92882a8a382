//! The reading of the conf files of a directory.
ghost use Rattle.std.specs.Prelude.{◌≡◌, ◌≤◌, All, IfErr, IfOk, OnOk, length};
ghost use Rattle.image_tree.specs.declared.path.TheConstants.{PATH_MAX};
ghost use Rattle.ldso_conf.specs.Reading.{ConfFile, IsConfOf, ReadsConf};
ghost use Rattle.ldso_conf.specs.Visits.{ReadsAny};
ghost use Rattle.lib_types.specs.Counts.{raised};
ghost use Rattle.looked_conf.specs.Conf.{IfLooked, LoadsConf, LookFails, SeesConf, look_ending};
ghost use Rattle.looked_tree.specs.Looked.{LooksOn};
ghost use Rattle.tree_face.specs.Known.{IfKnown};

use crate::fault::LookFault;
use crate::view::LookedView;
use ldso_conf::{Conf, ReadFault, read_conf_in};
use looked_tree::LookedPart;
use root_folder::Folder;
use root_tree::TreeRead;
use std::alloc::Global;
use tree_face::Store;

// Reads the conf file at this path in a view, and all files that it includes.
fn read_in<F: Folder, S: Store>(
    alloc: Global,
    path: &[u8],
    view: &mut LookedView<'_, F>,
    store: &mut S,
) -> Result<Conf, LookFault>
    ensures same_folder { view.new.folder.ghost_name ≡ view.old.folder.ghost_name }
    ensures same_part { view.new.looked.ghost_name ≡ view.old.looked.ghost_name }
    ensures conf { IfOk result (λ conf. IfLooked (F.state view.old.folder.now) view.old.looked.now (λ t. IfKnown (S.state store.old).held
        (λ held. IsConfOf (ConfFile path.now) conf held t))) }
    ensures short { IfOk result (λ conf. All (λ dir. length dir ≤ PATH_MAX) conf.dirs) }
    ensures begun { IfOk result (λ conf. (S.state store.new).begun ≡ raised (S.state store.old).begun conf.files) }
    ensures loads { OnOk result (IfKnown (S.state store.old).held
        (λ held. LoadsConf (ConfFile path.now) held (F.state view.old.folder.now) (F.state view.new.folder.now) view.old.looked.now view.new.looked.now)) }
    ensures looks { OnOk result (LooksOn (F.state view.old.folder.now) (F.state view.new.folder.now) view.old.looked.now view.new.looked.now) }
    ensures fails { IfErr result (λ fault. LookFails fault (F.state view.old.folder.now) (F.state view.new.folder.now) view.old.looked.now view.new.looked.now) }
    ensures reads { IfLooked (F.state view.old.folder.now) view.old.looked.now
        (λ t. ReadsConf (ConfFile path.now) t (look_ending result) (S.state store.old) (S.state store.new)) }
    ensures any { ReadsAny (S.state store.old).held (look_ending result) (S.state store.old) (S.state store.new) }
{
    match read_conf_in(alloc, path, view, store) {
        Ok(conf) => Ok(conf),
        Err(ReadFault::StoreFault) => Err(LookFault::StoreFault),
        Err(ReadFault::NoMemory) => Err(LookFault::NoMemory),
        Err(ReadFault::Unseen) => match view.take_fault() {
            Some(fault) => Err(LookFault::Tree(fault)),
            None => unreachable!(),
        },
    }
}

// The same in a directory, of which a part was looked at. `fault` is for the view.
fn read_with<F: Folder, S: Store>(
    alloc: Global,
    path: &[u8],
    looked: &mut LookedPart,
    folder: &mut F,
    store: &mut S,
    fault: &mut Option<TreeRead>,
) -> Result<Conf, LookFault>
    ensures { SeesConf (ConfFile path.now) result (F.state folder.old) (F.state folder.new) (S.state store.old) (S.state store.new) looked.old looked.new }
{
    let mut view = LookedView::new(folder, looked, fault);
    read_in(alloc, path, &mut view, store)
}

/// Reads the conf file at this path of a directory and all files that it includes. Looks up only what the reading needs. After that the
/// part that was looked at gives the conf files of the whole tree.
pub fn see_conf<F: Folder, S: Store>(
    alloc: Global,
    path: &[u8],
    looked: &mut LookedPart,
    folder: &mut F,
    store: &mut S,
) -> Result<Conf, LookFault>
    ensures { SeesConf (ConfFile path.now) result (F.state folder.old) (F.state folder.new) (S.state store.old) (S.state store.new) looked.old looked.new }
{
    let mut fault = None;
    read_with(alloc, path, looked, folder, store, &mut fault)
}
