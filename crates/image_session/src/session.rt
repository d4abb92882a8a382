//! A loaded image.
ghost use Rattle.std.specs.Prelude.{◌≡◌, IfErr, IfOk};
ghost use Rattle.aux_cache.specs.Stamps.{AreRecordable};
ghost use Rattle.image_session.specs.Aux.{damage_of_slot, stamps_of_slot};
ghost use Rattle.image_session.specs.Reading.{says};
ghost use Rattle.image_session.specs.Adopted.{Adopts};
ghost use Rattle.image_session.specs.Session.{IsImageOf, Loads, LoadsFrom, ReadsBoth};

use crate::fault::{LoadFault, SlotFault};
use crate::reading::{Stored, TreeSource, read_slot, read_stored, tree_of};
use aux_cache::{AuxFault, Stamps};
use lib_types::Text;
use std::alloc::Global;
use std::marker::Model;
use tree_face::{Disk, Slot, Tree};

/// A loaded image. Its stamps can be recorded in an auxiliary cache.
#[derive(Drop)]
pub struct Session {
    pub tree: Tree,
    /// The stamps of the auxiliary cache, by file identity.
    pub stamps: Stamps,
    /// Whether the tree was edited since it was loaded or updated.
    pub edited: bool,
    /// The offset at which the auxiliary cache was corrupt when it was loaded, until an update reports it.
    pub damaged: Option<u64>,
}

impl Model for Session {
    ghost use Rattle.aux_cache.specs.Stamps.{AreRecordable};
    ghost use Rattle.image_session.specs.Session.{Loaded};

    ghost Value = { Loaded };

    ghost view = { λ session. record { tree = session.tree; stamps = session.stamps; edited = session.edited; damaged = session.damaged } };

    ghost invariant = { λ session. AreRecordable session.stamps };
}

// The contents that were read for an image.
#[derive(Drop)]
pub(crate) struct Readings {
    pub stored: Stored,
    pub aux: Option<Text>,
}

// The stamps of the Aux slot, and whether it is corrupt.
#[derive(Drop)]
struct AuxStamps {
    stamps: Stamps,
    damaged: Option<u64>,
}

fn read_both<D: Disk>(
    alloc: Global,
    disk: &mut D,
    source: TreeSource,
) -> Result<Readings, SlotFault>
    ensures { ReadsBoth source result (D.state disk.old) (D.state disk.new) }
{
    let stored = read_stored(alloc, disk, source)?;
    let aux = read_slot(alloc, disk, Slot::Aux)?;
    Ok(Readings { stored, aux })
}

// The stamps of the Aux slot.
fn stamps_of(alloc: Global, aux: Option<Text>) -> Result<AuxStamps, LoadFault>
    ensures stamps { IfOk result (λ read. read.stamps ≡ stamps_of_slot aux) }
    ensures damaged { IfOk result (λ read. read.damaged ≡ damage_of_slot aux) }
    ensures recordable { IfOk result (λ read. AreRecordable read.stamps) }
    ensures fault { IfErr result (λ fault. fault ≡ LoadFault.NoMemory) }
{
    let Some(text) = aux else {
        return Ok(AuxStamps {
            stamps: Stamps::new(alloc),
            damaged: None,
        });
    };
    match aux_cache::read(alloc, text.as_bytes()) {
        Ok(stamps) => Ok(AuxStamps {
            stamps,
            damaged: None,
        }),
        Err(AuxFault::Damaged { at }) => Ok(AuxStamps {
            stamps: Stamps::new(alloc),
            damaged: Some(at),
        }),
        Err(AuxFault::NoMemory) => Err(LoadFault::NoMemory),
    }
}

// Builds the image from the contents that were read.
fn image_of(alloc: Global, readings: Readings) -> Result<Session, LoadFault>
    ensures { IsImageOf (says readings.stored) readings.aux result }
{
    let tree = tree_of(alloc, readings.stored)?;
    let aux = stamps_of(alloc, readings.aux)?;
    Ok(Session {
        tree,
        stamps: aux.stamps,
        edited: false,
        damaged: aux.damaged,
    })
}

impl Session {
    /// Loads the image of a disk. A corrupt auxiliary cache isn't an error; the image then has no stamps.
    pub fn load<D: Disk>(alloc: Global, disk: &mut D) -> Result<Session, LoadFault>
        ensures loads { Loads result (D.state disk.old) (D.state disk.new) }
    {
        Session::load_from(alloc, disk, TreeSource::Manifest)
    }

    /// Loads the image whose tree comes from this source.
    pub fn load_from<D: Disk>(
        alloc: Global,
        disk: &mut D,
        source: TreeSource,
    ) -> Result<Session, LoadFault>
        ensures loads { LoadsFrom source result (D.state disk.old) (D.state disk.new) }
    {
        let readings = read_both(alloc, disk, source)?;
        image_of(alloc, readings)
    }

    /// A session over this tree, as if it had been loaded and edited: the next update writes its manifest. Only the auxiliary cache is
    /// read. After an error the tree is dropped.
    pub fn adopt<D: Disk>(alloc: Global, disk: &mut D, tree: Tree) -> Result<Session, LoadFault>
        ensures adopts { Adopts tree result (D.state disk.old) (D.state disk.new) }
    {
        let content = read_slot(alloc, disk, Slot::Aux)?;
        let AuxStamps { stamps, damaged } = stamps_of(alloc, content)?;
        Ok(Session {
            tree,
            stamps,
            edited: true,
            damaged,
        })
    }
}
