//! Reading the slots of an image, and the tree from its source.
ghost use Rattle.image_session.specs.Reading.{IfDiskFailed, IsTreeOf, ReadsContent, ReadsImage, ReadsStored, ReadsTree, says};

use crate::fault::{LoadFault, SlotFault};
use lib_types::Text;
use std::alloc::Global;
use tree_face::{Disk, DiskRead, Slot, Tree};

/// Where the tree of an image comes from.
#[derive(Clone, Copy, Debug, PartialEq, Eq)]
pub enum TreeSource {
    /// The manifest in the Manifest slot.
    Manifest,
}

/// The stored content of a source.
#[derive(Drop)]
pub(crate) enum Stored {
    /// The content of the Manifest slot.
    Manifest(Option<Text>),
}

/// An image for a command that only queries it.
#[derive(Drop)]
pub struct ReadImage {
    pub tree: Tree,
    /// The content of the Cache slot.
    pub cache: Option<Text>,
}

/// Reads a slot. All commands read slots by this function.
pub fn read_slot<D: Disk>(
    alloc: Global,
    disk: &mut D,
    slot: Slot,
) -> Result<Option<Text>, SlotFault>
    ensures { ReadsContent slot result (D.state disk.old) (D.state disk.new) }
{
    match disk.read(alloc, slot) {
        Ok(Some(bytes)) => Ok(Some(Text::from_vec(bytes))),
        Ok(None) => Ok(None),
        Err(DiskRead::Failed) => Err(SlotFault::DiskFailed { slot }),
        Err(DiskRead::NoMemory) => Err(SlotFault::NoMemory),
    }
}

/// Reads the content of a source without parsing it.
pub(crate) fn read_stored<D: Disk>(
    alloc: Global,
    disk: &mut D,
    source: TreeSource,
) -> Result<Stored, SlotFault>
    ensures { ReadsStored source result (D.state disk.old) (D.state disk.new) }
{
    match source {
        TreeSource::Manifest => Ok(Stored::Manifest(read_slot(alloc, disk, Slot::Manifest)?)),
    }
}

/// Parses the tree in the content of a source.
pub(crate) fn tree_of(alloc: Global, stored: Stored) -> Result<Tree, LoadFault>
    ensures tree { IsTreeOf (says stored) result }
    ensures no_disk { IfDiskFailed result (λ slot. ⊥) }
{
    match stored {
        Stored::Manifest(None) => Err(LoadFault::NoManifest),
        Stored::Manifest(Some(text)) => Ok(mtree_manifest::read(alloc, text.as_bytes())?),
    }
}

/// Reads the tree of an image.
pub fn read_tree<D: Disk>(
    alloc: Global,
    disk: &mut D,
    source: TreeSource,
) -> Result<Tree, LoadFault>
    ensures { ReadsTree source result (D.state disk.old) (D.state disk.new) }
{
    let stored = read_stored(alloc, disk, source)?;
    tree_of(alloc, stored)
}

/// Reads the tree of an image and then its cache. Without a tree the cache isn't read.
pub fn read_image<D: Disk>(
    alloc: Global,
    disk: &mut D,
    source: TreeSource,
) -> Result<ReadImage, LoadFault>
    ensures { ReadsImage source result (D.state disk.old) (D.state disk.new) }
{
    let tree = read_tree(alloc, disk, source)?;
    let cache = read_slot(alloc, disk, Slot::Cache)?;
    Ok(ReadImage { tree, cache })
}
