//! The directory of an image, which is read path by path, and in which links are made.
ghost use Rattle.root_folder.specs.Crash.{AddsLink, HasMoments, HasWholeTree, Settles};
ghost use Rattle.root_folder.specs.Folder.{Does, FolderState, GivesNames, GivesNode, KeepsContent, Links, MayLink, Reads, SettlesIn};
ghost use Rattle.root_folder.specs.declared.folder.FolderCall.TheVariants as calls;
ghost use Rattle.image_tree.specs.Node.{is_target};
ghost use Rattle.image_tree.specs.Paths.{is_path};
ghost use Rattle.std.specs.Prelude.{◌≡◌, IsTrue};

use lib_types::{Failed, NoMemory, Text, Texts};
use std::alloc::Global;
use tree_face::{Node, Tag};

/// A call that was made.
#[derive(Drop)]
pub enum FolderCall {
    Names { dir: Text },
    Look { path: Text },
    Link { tag: Tag, path: Text, target: Text },
    Settle { dir: Text },
}

/// How many calls there were of each kind, also those that failed.
#[derive(Clone, Copy, Debug, PartialEq, Eq)]
pub struct FolderCounts {
    pub lists: u64,
    pub looks: u64,
    pub links: u64,
    pub settles: u64,
}

/// Why a directory couldn't be listed, or a path not looked up.
#[derive(Clone, Copy, Debug, PartialEq, Eq)]
pub enum FolderRead {
    Failed,
    NoMemory,
}

impl From<NoMemory> for FolderRead {
    ghost use Rattle.root_folder.specs.declared.folder.FolderRead.TheVariants as fails;

    ghost from_gives = { λ _ fault. fault ≡ fails.NoMemory };

    fn from(_: NoMemory) -> FolderRead {
        FolderRead::NoMemory
    }
}

/// The directory of an image. Each call is counted. A call that returns Failed raises the count of faults. If the call
/// reads, it raises the count of read faults too. A call that returns Ok or NoMemory raises neither count.
pub trait Folder {
    ghost state: { Self → FolderState };

    /// The names directly in a directory, each once, sorted by their bytes. If the path is not a directory, the call fails.
    fn names(&mut self, alloc: Global, dir: &[u8]) -> Result<Texts, FolderRead>
        ensures reads { Reads (calls.Names dir.now) (state self.old) (state self.new) result }
        ensures names { GivesNames dir.now (state self.old) result };

    /// The node at the path, or None if there is none. The root has none.
    fn look(&mut self, alloc: Global, path: &[u8]) -> Result<Option<Node>, FolderRead>
        ensures reads { Reads (calls.Look path.now) (state self.old) (state self.new) result }
        ensures node { GivesNode path.now (state self.old) result };

    /// Makes a symbolic link with this text at an unused path, or in place of a link. If the path has a directory or a
    /// file, or its parent is not a directory, the call fails and changes nothing. After another error the path has its
    /// old node or the link. Until `settle` is called on the path's directory, a crash may leave either.
    fn link(&mut self, tag: Tag, path: &[u8], target: &[u8]) -> Result<(), Failed>
        requires path { IsTrue (is_path path.now) }
        requires target { IsTrue (is_target target.now) }
        ensures does { Does (calls.Link tag path.now target.now) (Links path.now target.now) (MayLink path.now target.now)
            (state self.old) (state self.new) result }
        ensures crash { AddsLink path.now target.now (state self.old) (state self.new) result };

    /// Flushes a directory to stable storage (fsync). After that a crash leaves each node directly in it as it is.
    /// If the path is not a directory, the call fails.
    fn settle(&mut self, dir: &[u8]) -> Result<(), Failed>
        ensures does { Does (calls.Settle dir.now) (SettlesIn dir.now) KeepsContent (state self.old) (state self.new) result }
        ensures crash { Settles dir.now (state self.old) (state self.new) result };

    // What a crash now may leave is part of what a crash since any earlier moment might have left.
    ghost moments: { (folder : Self) → HasMoments (state folder) };

    // Every directory of a known tree has a node.
    ghost whole: { (folder : Self) → HasWholeTree (state folder) };
}
