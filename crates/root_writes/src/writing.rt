//! The links are made and their directories fsynced before the first file changes.
ghost use Rattle.std.specs.Prelude.{◌≡◌, ◌≤◌, IfErr, OnOk, true};
ghost use Rattle.std.specs.Option.{option_copied};
ghost use Rattle.atomic_replace.specs.OneByOne.{KeepsRestMade, WritesAll, WritesPart};
ghost use Rattle.tree_face.specs.declared.disk.Slot.TheVariants as slots;
ghost use Rattle.root_links.specs.Links.{are_valid};
ghost use Rattle.root_writes.specs.Writing.{LeavesInOrder, WritesRoot, file_slots, file_writes, planned_files, planned_links, states};

use crate::fault::WriteFault;
use atomic_replace::{DiskFault, SlotWrite, replace_slots};
use root_folder::Folder;
use root_links::{NewLink, make_links};
use tree_face::{Disk, Slot, Tag};

/// The requested writes. Making them allocates no memory.
#[derive(Clone, Copy)]
pub struct RootWrites<'l, 'p, 'f> {
    /// The links, in the order of the plan.
    pub links: &'l [NewLink<'p>],
    /// The cache; None if the run builds no cache.
    pub cache: Option<&'f [u8]>,
    /// The auxiliary cache; None if the run keeps none.
    pub aux: Option<&'f [u8]>,
}

fn cache_write(bytes: &[u8]) -> SlotWrite<'_>
    ensures { (result.slot ≡ slots.Cache) × (result.bytes.now ≡ bytes.now) }
{
    SlotWrite {
        slot: Slot::Cache,
        bytes,
    }
}

fn aux_write(bytes: &[u8]) -> SlotWrite<'_>
    ensures { (result.slot ≡ slots.Aux) × (result.bytes.now ≡ bytes.now) }
{
    SlotWrite {
        slot: Slot::Aux,
        bytes,
    }
}

// Replaces the cache, then the auxiliary cache.
fn replace_files<D: Disk>(
    disk: &mut D,
    tag: Tag,
    cache: Option<&[u8]>,
    aux: Option<&[u8]>,
) -> Result<(), DiskFault>
    ensures done { OnOk result (WritesAll tag (file_writes (option_copied cache.entry) (option_copied aux.entry)) (D.state disk.old) (D.state disk.new)) }
    ensures failed { IfErr result (λ fault. WritesPart tag (file_writes (option_copied cache.entry) (option_copied aux.entry)) fault (D.state disk.old) (D.state disk.new)) }
    ensures made { KeepsRestMade tag.0 file_slots (D.state disk.old) (D.state disk.new) }
    ensures faults { (D.state disk.old).faults ≤ (D.state disk.new).faults }
{
    match cache {
        Some(cache) => match aux {
            Some(aux) => replace_slots(disk, tag, &[cache_write(cache), aux_write(aux)]),
            None => replace_slots(disk, tag, &[cache_write(cache)]),
        },
        None => match aux {
            Some(aux) => replace_slots(disk, tag, &[aux_write(aux)]),
            None => replace_slots(disk, tag, &[]),
        },
    }
}

/// Makes the links and fsyncs their directories, then replaces the cache, then the auxiliary cache. It allocates no memory. At each
/// moment a crash leaves each link old or new, and each file old or new. A crash leaves a new file only if all links exist and are
/// durable.
#[tactic(auto, using(crate::proofs::InOrder::in_order))]
pub fn write_root<F: Folder, D: Disk>(
    folder: &mut F,
    disk: &mut D,
    tag: Tag,
    writes: &RootWrites<'_, '_, '_>,
) -> Result<(), WriteFault>
    requires valid { are_valid (planned_links writes.now) ≡ true }
    ensures writes { WritesRoot tag (planned_links writes.now) (planned_files writes.now) result
        (states (F.state folder.old) (D.state disk.old)) (states (F.state folder.new) (D.state disk.new)) }
    ensures order { LeavesInOrder tag (planned_links writes.now) (planned_files writes.now)
        (states (F.state folder.old) (D.state disk.old)) (states (F.state folder.new) (D.state disk.new)) }
    ensures made { KeepsRestMade tag.0 file_slots (D.state disk.old) (D.state disk.new) }
    ensures faults { (D.state disk.old).faults ≤ (D.state disk.new).faults }
{
    if let Err(fault) = make_links(folder, tag, writes.links) {
        return Err(WriteFault::Links(fault));
    }
    match replace_files(disk, tag, writes.cache, writes.aux) {
        Ok(()) => Ok(()),
        Err(fault) => Err(WriteFault::Files(fault)),
    }
}
