//! Slots of a disk, replaced one after another.
ghost use Rattle.std.specs.Prelude.{◌≡◌, ◌≤◌, ◌∷◌, [], OnOk, IfErr};
ghost use Rattle.tree_face.specs.Disk.{KeepsOthersMade};
ghost use Rattle.atomic_replace.specs.OneByOne.{slots_of, writes_in, KeepsRestMade, WritesAll, WritesPart};

use crate::{DiskFault, Updater};
use tree_face::{Disk, Slot, Tag};

/// A slot and its new content.
#[derive(Clone, Copy)]
pub struct SlotWrite<'a> {
    pub slot: Slot,
    pub bytes: &'a [u8],
}

// Replaces the content of a slot by these bytes.
fn replace<D: Disk>(disk: &mut D, tag: Tag, slot: Slot, bytes: &[u8]) -> Result<(), DiskFault>
    ensures done { OnOk result (WritesAll tag ((slot, bytes.now) ∷ []) (D.state disk.old) (D.state disk.new)) }
    ensures failed { IfErr result (λ fault. WritesPart tag ((slot, bytes.now) ∷ []) fault (D.state disk.old) (D.state disk.new)) }
    ensures made { KeepsOthersMade tag.0 slot (D.state disk.old) (D.state disk.new) }
    ensures faults { (D.state disk.old).faults ≤ (D.state disk.new).faults }
{
    let mut updater = Updater::new(tag, slot, bytes);
    updater.commit(disk)
}

/// Replaces the contents of these slots in order, by way of the tag's temporary files. A slot changes only after the earlier ones are
/// settled (fsynced). It allocates no memory. If it fails at a slot, the earlier slots are replaced. That slot has its old or new content.
pub fn replace_slots<D: Disk>(
    disk: &mut D,
    tag: Tag,
    writes: &[SlotWrite<'_>],
) -> Result<(), DiskFault>
    ensures done { OnOk result (WritesAll tag (writes_in writes.now) (D.state disk.old) (D.state disk.new)) }
    ensures failed { IfErr result (λ fault. WritesPart tag (writes_in writes.now) fault (D.state disk.old) (D.state disk.new)) }
    ensures made { KeepsRestMade tag.0 (slots_of (writes_in writes.now)) (D.state disk.old) (D.state disk.new) }
    ensures faults { (D.state disk.old).faults ≤ (D.state disk.new).faults }
{
    for write in writes {
        replace(disk, tag, write.slot, write.bytes)?;
    }
    Ok(())
}
