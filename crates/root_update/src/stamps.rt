//! The stamps of the auxiliary cache that an update of a directory uses.
ghost use Rattle.std.specs.Prelude.{◌≡◌, ◌≤◌, None, Some, IfErr, IfOk};
ghost use Rattle.aux_cache.specs.Stamps.{AreRecordable};
ghost use Rattle.image_session.specs.Aux.{damage_of_slot, stamps_of_slot};
ghost use Rattle.root_update.specs.Loading.{ReadsAux, IsLoadedFrom};
ghost use Rattle.root_update.specs.declared.parts.AuxUse.TheVariants as uses;
ghost use Rattle.tree_face.specs.Disk.{KeepsMade};

use crate::parts::AuxUse;
use aux_cache::{AuxFault, Stamps};
use image_session::{SlotFault, read_slot};
use std::alloc::Global;
use tree_face::{Disk, Slot};

/// The information in an auxiliary cache.
#[derive(Drop)]
pub(crate) struct AuxStamps {
    pub stamps: Stamps,
    /// The first offset at which it is malformed.
    pub damaged: Option<u64>,
}

fn no_stamps(alloc: Global) -> AuxStamps
    ensures { IsLoadedFrom None result }
{
    AuxStamps {
        stamps: Stamps::new(alloc),
        damaged: None,
    }
}

// The information in this auxiliary cache. A malformed one gives no stamps.
fn stamps_of(alloc: Global, text: &[u8]) -> Result<AuxStamps, SlotFault>
    ensures stamps { IfOk result (λ read. read.stamps ≡ stamps_of_slot (Some text.now)) }
    ensures damaged { IfOk result (λ read. read.damaged ≡ damage_of_slot (Some text.now)) }
    ensures recordable { IfOk result (λ read. AreRecordable read.stamps) }
    ensures fault { IfErr result (λ fault. fault ≡ SlotFault.NoMemory) }
{
    match aux_cache::read(alloc, text) {
        Ok(stamps) => Ok(AuxStamps {
            stamps,
            damaged: None,
        }),
        Err(AuxFault::Damaged { at }) => Ok(AuxStamps {
            stamps: Stamps::new(alloc),
            damaged: Some(at),
        }),
        Err(AuxFault::NoMemory) => Err(SlotFault::NoMemory),
    }
}

fn read_stamps<D: Disk>(alloc: Global, disk: &mut D) -> Result<AuxStamps, SlotFault>
    ensures reads { ReadsAux uses.Updated result (D.state disk.old) (D.state disk.new) }
    ensures recordable { IfOk result (λ read. AreRecordable read.stamps) }
    ensures made { KeepsMade (D.state disk.old) (D.state disk.new) }
    ensures faults { (D.state disk.old).faults ≤ (D.state disk.new).faults }
{
    match read_slot(alloc, disk, Slot::Aux)? {
        Some(text) => stamps_of(alloc, text.as_bytes()),
        None => Ok(no_stamps(alloc)),
    }
}

/// Reads the stamps of the auxiliary cache, if it is used. Otherwise there are none.
pub(crate) fn read_aux<D: Disk>(
    alloc: Global,
    aux: AuxUse,
    disk: &mut D,
) -> Result<AuxStamps, SlotFault>
    ensures reads { ReadsAux aux result (D.state disk.old) (D.state disk.new) }
    ensures recordable { IfOk result (λ read. AreRecordable read.stamps) }
    ensures made { KeepsMade (D.state disk.old) (D.state disk.new) }
    ensures faults { (D.state disk.old).faults ≤ (D.state disk.new).faults }
{
    match aux {
        AuxUse::Updated => read_stamps(alloc, disk),
        AuxUse::Unused | AuxUse::Replaced => Ok(no_stamps(alloc)),
    }
}
