//! Why a slot isn't read, and why an image isn't loaded or edited.
ghost use Rattle.std.specs.Prelude.{◌≡◌};
ghost use Rattle.image_session.specs.Faults.{of_line, of_manifest, of_slot, of_tree};

use mtree_manifest::{EntryLineFault, LineKind, ManifestFault};
use thiserror::Error;
use tree_face::{Slot, TreeFault};

/// Why a slot isn't read.
#[derive(Clone, Copy, Debug, PartialEq, Eq, Error)]
pub enum SlotFault {
    /// The disk failed.
    #[error("a slot of the disk can't be read")]
    DiskFailed { slot: Slot },
    #[error("out of memory")]
    NoMemory,
}

/// Why an image isn't loaded.
#[derive(Clone, Copy, Debug, PartialEq, Eq, Error)]
pub enum LoadFault {
    /// A slot can't be read.
    #[error("a slot of the disk can't be read")]
    DiskFailed { slot: Slot },
    /// The Manifest slot is empty.
    #[error("there is no manifest")]
    NoManifest,
    /// The manifest can't be parsed into a tree. The inner error is never NoMemory.
    #[error("the manifest has no tree")]
    BadManifest(ManifestFault),
    #[error("out of memory")]
    NoMemory,
}

/// Why an image isn't edited.
#[derive(Clone, Copy, Debug, PartialEq, Eq, Error)]
pub enum EditFault {
    /// The line doesn't request an edit.
    #[error("the line is no edit")]
    Bad(LineKind),
    /// A file or a symlink would have something below it.
    #[error("a file or a link would have something below it")]
    Clash,
    /// The path has no node to remove.
    #[error("there is no node at the path")]
    NotThere,
    /// The tree has the maximum number of nodes.
    #[error("the tree has no room for a node more")]
    Full,
    #[error("out of memory")]
    NoMemory,
}

impl From<SlotFault> for LoadFault {
    ghost from_gives = { λ fault e. e ≡ of_slot fault };

    fn from(fault: SlotFault) -> Self {
        match fault {
            SlotFault::DiskFailed { slot } => LoadFault::DiskFailed { slot },
            SlotFault::NoMemory => LoadFault::NoMemory,
        }
    }
}

impl From<ManifestFault> for LoadFault {
    ghost from_gives = { λ fault e. e ≡ of_manifest fault };

    fn from(fault: ManifestFault) -> Self {
        match fault {
            ManifestFault::NoMemory => LoadFault::NoMemory,
            _ => LoadFault::BadManifest(fault),
        }
    }
}

impl From<EntryLineFault> for EditFault {
    ghost from_gives = { λ fault e. e ≡ of_line fault };

    fn from(fault: EntryLineFault) -> Self {
        match fault {
            EntryLineFault::Bad(kind) => EditFault::Bad(kind),
            EntryLineFault::NoMemory => EditFault::NoMemory,
        }
    }
}

impl From<TreeFault> for EditFault {
    ghost from_gives = { λ fault e. e ≡ of_tree fault };

    fn from(fault: TreeFault) -> Self {
        match fault {
            TreeFault::Clash => EditFault::Clash,
            TreeFault::Full => EditFault::Full,
            TreeFault::NoMemory => EditFault::NoMemory,
        }
    }
}
