//! What is read of a directory.
ghost use Rattle.root_asking.specs.Reading.{ReadsRoot};

use crate::fault::ReadFault;
use image_session::{ReadImage, read_slot};
use root_folder::Folder;
use root_tree::read_tree;
use std::alloc::Global;
use tree_face::{Disk, Slot};

/// Reads the tree of a directory, and then its cache. If the tree can't be read, the cache isn't read.
pub(crate) fn read_root<F: Folder, D: Disk>(
    alloc: Global,
    folder: &mut F,
    disk: &mut D,
) -> Result<ReadImage, ReadFault>
    ensures { ReadsRoot result (F.state folder.old) (F.state folder.new) (D.state disk.old) (D.state disk.new) }
{
    let tree = match read_tree(alloc, folder) {
        Ok(tree) => tree,
        Err(fault) => return Err(ReadFault::Tree(fault)),
    };
    match read_slot(alloc, disk, Slot::Cache) {
        Ok(cache) => Ok(ReadImage { tree, cache }),
        Err(fault) => Err(ReadFault::Cache(fault)),
    }
}
