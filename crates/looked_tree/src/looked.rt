//! The part of a directory that was looked at.
ghost use Rattle.std.specs.Prelude.{◌≡◌, ◌∷◌, [], IsErrOf, OnOk};
ghost use Rattle.looked_tree.specs.Looked.{Loads};
ghost use Rattle.root_tree.specs.ReadTree.{ReadsOn};
ghost use Rattle.root_tree.specs.declared.fault.TreeRead.TheVariants as reads;
ghost use Rattle.seen_tree.specs.Seen.{IsFull, seen};

use indexmap::IndexMap;
use lib_types::{Text, Texts};
use root_folder::Folder;
use root_tree::TreeRead;
use seen_tree::SeenPart;
use std::alloc::Global;
use std::marker::Model;
use tree_face::Tree;

/// The part of a directory that was looked at: the nodes at the paths that were looked up, and the names in the directories that were
/// listed. Contracts see both.
#[derive(Drop)]
pub struct LookedPart {
    pub(crate) alloc: Global,
    pub(crate) part: SeenPart,
    pub(crate) names: IndexMap<Text, Texts>,
}

impl Model for LookedPart {
    ghost use Rattle.looked_tree.specs.Looked.{Looked, looked};

    ghost Value = { Looked };

    ghost view = { λ s. looked s.part s.names.entries };
}

impl LookedPart {
    ghost use Rattle.looked_tree.specs.Looked.{looked};

    /// Nothing is looked at yet. Keeps the allocator and allocates no memory.
    pub fn new(alloc: Global) -> LookedPart
        ensures { result ≡ looked (seen [] []) [] }
    {
        LookedPart {
            alloc,
            part: SeenPart::new(alloc),
            names: IndexMap::new(alloc),
        }
    }

    /// The nodes that were found.
    pub fn tree(&self) -> &Tree
        ensures { result.now ≡ self.now.seen.part }
    {
        self.part.tree()
    }

    /// The nodes that were found, without allocation.
    pub fn into_tree(self) -> Tree
        ensures { result ≡ self.seen.part }
    {
        self.part.into_tree()
    }

    /// Looks up a path, unless it was looked up before. The root, and a text that isn't a valid path, need not be looked up.
    #[tactic(auto, using(crate::proofs::Loads::one_path))]
    pub fn see<F: Folder>(&mut self, folder: &mut F, path: &[u8]) -> Result<(), TreeRead>
        ensures loads { OnOk result (Loads (λ t. path.now ∷ []) (λ t. []) (F.state folder.old) (F.state folder.new) self.old self.new) }
        ensures full { IsErrOf result reads.TooLarge → IsFull self.new.seen }
        ensures reads { ReadsOn result (F.state folder.old) (F.state folder.new) }
    {
        self.part.see(folder, path)
    }
}
