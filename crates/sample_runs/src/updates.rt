//! The updates of a sample.
ghost use Rattle.std.specs.Prelude.{◌≡◌, ◌≤◌, ◌∷◌, [], IfErr, IfOk, OnErr, OnOk, Some};
ghost use Rattle.tree_face.specs.Disk.{KeepsAll};
ghost use Rattle.tree_face.specs.declared.disk.Slot.TheVariants as slots;
ghost use Rattle.tree_face.specs.Follows.{IsFollowedBy, IsFollowedByPart};
ghost use Rattle.tree_face.specs.Known.{IfKnown, Relates};
ghost use Rattle.sample_runs.specs.Updates.{Goes, ReadFails, UpdateFails, UpdatesTo, UsesPart, keys_of};

use crate::fault::SampleFault;
use image_session::{Session, SlotFault, read_slot};
use lib_types::Text;
use std::alloc::Global;
use tree_face::{Disk, Slot, Store, Tag};

/// The numbers of an update, and the cache that it has written.
#[derive(Drop)]
pub struct SampleUpdate {
    pub libs: u32,
    pub links: u32,
    pub opened: u64,
    pub cache: Text,
}

// The cache in its file.
fn read_cache<D: Disk>(alloc: Global, disk: &mut D) -> Result<Text, SampleFault>
    ensures content { IfOk result (λ cache. IfKnown (D.state disk.old).contents (λ known. known.now.cache ≡ Some cache)) }
    ensures failed { IfErr result (λ fault. ReadFails fault (D.state disk.old) (D.state disk.new)) }
    ensures keeps { KeepsAll (D.state disk.old) (D.state disk.new) }
    ensures faults { (D.state disk.old).faults ≤ (D.state disk.new).faults }
    ensures no_fault { OnOk result ((D.state disk.new).faults ≡ (D.state disk.old).faults) }
    ensures reads { OnOk result (Relates (IsFollowedBy (slots.Cache ∷ [])) (D.state disk.old).reads (D.state disk.new).reads) }
    ensures part { OnErr result (Relates (IsFollowedByPart (slots.Cache ∷ [])) (D.state disk.old).reads (D.state disk.new).reads) }
{
    match read_slot(alloc, disk, Slot::Cache) {
        Ok(Some(cache)) => Ok(cache),
        Ok(None) | Err(SlotFault::NoMemory) => Err(SampleFault::NoMemory),
        Err(SlotFault::DiskFailed { .. }) => Err(SampleFault::DiskFault),
    }
}

/// Updates an image, and reads the cache that the update writes.
#[tactic(auto, using(crate::proofs::Updating::is_updated, crate::proofs::Updating::is_failed, crate::proofs::Updating::is_unread, crate::proofs::Updating::stops, crate::proofs::Updating::stops_reading, crate::proofs::Updating::goes_on))]
pub(crate) fn update<S: Store, D: Disk>(
    alloc: Global,
    image: Session,
    store: &mut S,
    disk: &mut D,
) -> Result<(Session, SampleUpdate), SampleFault>
    ensures updated { IfOk result (λ updated. UpdatesTo image updated (S.state store.old) (S.state store.new) (D.state disk.old) (D.state disk.new)) }
    ensures failed { IfErr result (λ fault. UpdateFails image fault (S.state store.old) (S.state store.new) (D.state disk.old) (D.state disk.new)) }
    ensures part { OnErr result (UsesPart (λ held. keys_of held image) (slots.Cache ∷ []) (S.state store.old) (S.state store.new) (D.state disk.old) (D.state disk.new)) }
    ensures goes { Goes (S.state store.old) (S.state store.new) (D.state disk.old) (D.state disk.new) }
{
    let (updated, report) = match ldconfig_core::update(alloc, image, store, disk, Tag(0)) {
        Ok(updated) => updated,
        Err(fault) => return Err(SampleFault::from(fault)),
    };
    let cache = match read_cache(alloc, disk) {
        Ok(cache) => cache,
        Err(fault) => return Err(fault),
    };
    let numbers = SampleUpdate {
        libs: report.libs,
        links: report.links,
        opened: report.opened,
        cache,
    };
    Ok((updated, numbers))
}
