//! The update of an image.
ghost use Rattle.std.specs.Prelude.{◌≡◌, ◌≤◌, OnOk, IfErr};
ghost use Rattle.aux_cache.specs.Stamps.{AreRecordable};
ghost use Rattle.atomic_replace.specs.OneByOne.{KeepsRestMade, WritesAll, WritesPart};
ghost use Rattle.ldconfig_core.specs.Stages.{stored_image, texts_of};
ghost use Rattle.ldconfig_core.specs.Texts.{update_slots, writes_of};
ghost use Rattle.ldconfig_core.specs.Update.{Updates};
ghost use Rattle.hwcap_dirs.specs.declared.kinds.Scope.TheVariants.{Image};

use crate::fault::UpdateFault;
use crate::preparing::{Prepared, prepare};
use crate::report::Report;
use atomic_replace::{DiskFault, SlotWrite, replace_slots};
use aux_cache::Stamps;
use hwcap_dirs::Scope;
use image_session::Session;
use std::alloc::Global;
use tree_face::{Disk, Slot, Store, Tag, Tree};

// Replaces the manifest if there is a new one, then the cache, then the auxiliary cache.
fn write_texts<D: Disk>(disk: &mut D, tag: Tag, prepared: &Prepared) -> Result<(), DiskFault>
    ensures done { OnOk result (WritesAll tag (writes_of (texts_of prepared.now)) (D.state disk.old) (D.state disk.new)) }
    ensures failed { IfErr result (λ fault. WritesPart tag (writes_of (texts_of prepared.now)) fault (D.state disk.old) (D.state disk.new)) }
    ensures made { KeepsRestMade tag.0 update_slots (D.state disk.old) (D.state disk.new) }
    ensures faults { (D.state disk.old).faults ≤ (D.state disk.new).faults }
{
    let cache = SlotWrite {
        slot: Slot::Cache,
        bytes: prepared.cache.as_slice(),
    };
    let aux = SlotWrite {
        slot: Slot::Aux,
        bytes: prepared.aux.as_slice(),
    };
    match &prepared.manifest {
        Some(text) => {
            let manifest = SlotWrite {
                slot: Slot::Manifest,
                bytes: text.as_slice(),
            };
            replace_slots(disk, tag, &[manifest, cache, aux])
        }
        None => replace_slots(disk, tag, &[cache, aux]),
    }
}

// The image with this tree and these stamps, all of it stored.
fn updated(tree: Tree, stamps: Stamps) -> Session
    requires recordable { AreRecordable stamps }
    ensures { result ≡ stored_image tree stamps }
{
    Session {
        tree,
        stamps,
        edited: false,
        damaged: None,
    }
}

/// Updates an image: plans the links of its libraries and writes up to three files. These are the manifest (if the image was edited or
/// links are planned), the cache with the libraries' entries, and the auxiliary cache with their stamps. It opens a library file only if
/// the file's identity has no stamp. All memory is allocated before the first writing call. The returned session has the planned links and
/// the new stamps; another update of it finds the same, plans no link and writes the same caches.
pub fn update<S: Store, D: Disk>(
    alloc: Global,
    session: Session,
    store: &mut S,
    disk: &mut D,
    tag: Tag,
) -> Result<(Session, Report), UpdateFault>
    ensures updates { Updates Image tag session result (S.state store.old) (S.state store.new) (D.state disk.old) (D.state disk.new) }
{
    let mut image = session;
    let prepared = prepare(alloc, &Scope::Image, &mut image, store)?;
    match write_texts(disk, tag, &prepared) {
        Ok(()) => Ok((updated(image.tree, prepared.stamps), prepared.report)),
        Err(fault) => Err(UpdateFault::DiskFault(fault)),
    }
}
