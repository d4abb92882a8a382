//! Why the tree of a directory couldn't be read.
ghost use Rattle.std.specs.Prelude.{◌≡◌};
ghost use Rattle.root_tree.specs.ReadTree.{of_read};

use lib_types::{NoMemory, Text};
use root_folder::FolderRead;

/// Why the tree of a directory couldn't be read.
#[derive(Drop)]
pub enum TreeRead {
    /// The directory at this path can't be listed, or the path can't be looked up.
    Failed { at: Text },
    /// There are more nodes than a tree may have.
    TooLarge,
    NoMemory,
}

impl From<NoMemory> for TreeRead {
    ghost use Rattle.root_tree.specs.declared.fault.TreeRead.TheVariants as reads;

    ghost from_gives = { λ _ fault. fault ≡ reads.NoMemory };

    fn from(_: NoMemory) -> TreeRead {
        TreeRead::NoMemory
    }
}

/// The error of a call on this path.
pub(crate) fn fault_at(fault: FolderRead, at: Text) -> TreeRead
    ensures { result ≡ of_read fault at }
{
    match fault {
        FolderRead::Failed => TreeRead::Failed { at },
        FolderRead::NoMemory => TreeRead::NoMemory,
    }
}
