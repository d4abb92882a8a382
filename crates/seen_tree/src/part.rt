//! The paths that were looked up, and the nodes that were found.
ghost use Rattle.std.specs.Prelude.{◌≡◌, ◌∷◌, [], ◌≤◌, IfErr, IfSome, IsErrOf, IsTrue, OnErr, OnOk, false, length, true};
ghost use Rattle.std.specs.List.{list_any};
ghost use Rattle.std.specs.Str.{bytes_eq};
ghost use Rattle.indexmap.specs.IndexSet.{insert_key};
ghost use Rattle.image_tree.specs.Node.{is_node};
ghost use Rattle.image_tree.specs.Paths.{is_path};
ghost use Rattle.image_tree.specs.declared.tree.TheConstants.{NODES_MAX};
ghost use Rattle.root_tree.specs.ReadTree.{ReadsOn};
ghost use Rattle.root_tree.specs.SoFar.{is_of_adding};
ghost use Rattle.root_tree.specs.declared.fault.TreeRead.TheVariants as reads;
ghost use Rattle.seen_tree.specs.Part.{KeepsNodes};
ghost use Rattle.seen_tree.specs.Seen.{LooksMore, Sees, seen, with_found};

use crate::fault::fault_at;
use indexmap::IndexSet;
use lib_types::{NoMemory, Text, TextRef};
use root_folder::Folder;
use root_tree::TreeRead;
use std::alloc::Global;
use std::marker::Model;
use tree_face::{Kind, NODES_MAX, Node, Tree, TreeFault, is_path};

// Adds what was found at a path. A node that clashes with the other nodes is skipped. This can only happen if the
// directory changes while it is read.
fn keep(tree: &mut Tree, path: &[u8], found: Option<Node>) -> Result<(), TreeRead>
    requires path { IsTrue (is_path path.now) }
    requires valid { IfSome found (λ node. IsTrue (is_node node)) }
    ensures node { OnOk result (tree.new ≡ with_found tree.old path.now found) }
    ensures refused { OnErr result (tree.new ≡ tree.old) }
    ensures full { IsErrOf result reads.TooLarge → NODES_MAX ≤ length tree.old }
    ensures others { IfErr result (λ fault. is_of_adding fault ≡ true) }
{
    let Some(node) = found else {
        return Ok(());
    };
    if tree.node(path).is_some() {
        return Ok(());
    }
    match tree.put(path, node) {
        Ok(()) => Ok(()),
        Err(TreeFault::Clash) => Ok(()),
        Err(TreeFault::Full) => Err(TreeRead::TooLarge),
        Err(TreeFault::NoMemory) => Err(TreeRead::NoMemory),
    }
}

fn add_path(looked: &mut IndexSet<Text>, path: Text) -> Result<(), NoMemory>
    ensures { OnOk result (looked.new.keys ≡ insert_key bytes_eq looked.old.keys path) }
{
    looked.insert(path)?;
    Ok(())
}

// Adds the node that was found at a path, and then the path.
#[tactic(auto, using(crate::proofs::Looked::nodes_stay))]
fn add(
    tree: &mut Tree,
    looked: &mut IndexSet<Text>,
    path: &[u8],
    text: Text,
    found: Option<Node>,
) -> Result<(), TreeRead>
    requires path { IsTrue (is_path path.now) }
    requires valid { IfSome found (λ node. IsTrue (is_node node)) }
    ensures node { OnOk result (tree.new ≡ with_found tree.old path.now found) }
    ensures added { OnOk result (looked.new.keys ≡ insert_key bytes_eq looked.old.keys text) }
    ensures kept { KeepsNodes tree.old tree.new }
    ensures full { IsErrOf result reads.TooLarge → NODES_MAX ≤ length tree.new }
    ensures others { IfErr result (λ fault. is_of_adding fault ≡ true) }
{
    keep(tree, path, found)?;
    add_path(looked, text)?;
    Ok(())
}

// Looks up a path for the first time.
#[tactic(auto, using(crate::proofs::Calls::one_more))]
fn look_new<F: Folder>(
    alloc: Global,
    folder: &mut F,
    tree: &mut Tree,
    looked: &mut IndexSet<Text>,
    path: &[u8],
) -> Result<(), TreeRead>
    requires path { IsTrue (is_path path.now) }
    requires new { list_any (bytes_eq path.now) looked.old.keys ≡ false }
    ensures seen { OnOk result (Sees (F.state folder.old) (seen tree.old looked.old.keys) (seen tree.new looked.new.keys) (λ t. path.now ∷ [])) }
    ensures looks { OnOk result (LooksMore looked.old.keys looked.new.keys (F.state folder.old) (F.state folder.new)) }
    ensures kept { KeepsNodes tree.old tree.new }
    ensures full { IsErrOf result reads.TooLarge → NODES_MAX ≤ length tree.new }
    ensures reads { ReadsOn result (F.state folder.old) (F.state folder.new) }
{
    let text = Text::copy_of(alloc, path)?;
    match folder.look(alloc, path) {
        Ok(found) => {
            add(tree, looked, path, text, found)?;
            Ok(())
        }
        Err(fault) => Err(fault_at(fault, text)),
    }
}

/// The part of a directory's tree that was looked up: the paths, each looked up once, and the nodes that were found there.
/// Contracts see both.
#[derive(Drop)]
pub struct SeenPart {
    alloc: Global,
    tree: Tree,
    looked: IndexSet<Text>,
}

impl Model for SeenPart {
    ghost use Rattle.seen_tree.specs.Seen.{Seen, seen};

    ghost Value = { Seen };

    ghost view = { λ s. seen s.tree s.looked.keys };
}

impl SeenPart {
    ghost use Rattle.image_tree.specs.Tree.{kind_at};
    ghost use Rattle.path_walk.specs.Walk.{target_at};
    ghost use Rattle.seen_tree.specs.Seen.{IsFull};

    /// An empty part. Keeps the allocator and allocates no memory.
    pub fn new(alloc: Global) -> SeenPart
        ensures { result ≡ seen [] [] }
    {
        SeenPart {
            alloc,
            tree: Tree::new(alloc),
            looked: IndexSet::new(alloc),
        }
    }

    /// The allocator.
    pub(crate) fn alloc(&self) -> Global {
        self.alloc
    }

    /// The nodes that were found.
    pub fn tree(&self) -> &Tree
        ensures { result.now ≡ self.now.part }
    {
        &self.tree
    }

    /// The nodes that were found, without allocation.
    pub fn into_tree(self) -> Tree
        ensures { result ≡ self.part }
    {
        self.tree
    }

    /// What is at the path, according to the nodes that were found.
    pub fn kind(&self, path: &[u8]) -> Kind
        ensures { result ≡ kind_at self.now.part path.now }
    {
        self.tree.kind(path)
    }

    /// The target of the link at the path, or an empty text if no link was found there.
    pub(crate) fn target(&self, path: &[u8]) -> &[u8]
        ensures { result.now ≡ target_at self.now.part path.now }
    {
        match self.tree.node(path) {
            Some(Node::Link { target }) => target.as_bytes(),
            _ => b"",
        }
    }

    /// Looks up a path, unless it was looked up before. The root, and a text that isn't a valid path, need not be looked up.
    ///
    /// Returns TooLarge if 2^20 paths have been looked up. After an error each node that was found before is still there.
    #[tactic(auto, using(crate::proofs::Looked::no_path, crate::proofs::Looked::was_seen, crate::proofs::Calls::no_more, crate::proofs::Looked::full_by_paths, crate::proofs::Looked::full_by_nodes))]
    pub fn see<F: Folder>(&mut self, folder: &mut F, path: &[u8]) -> Result<(), TreeRead>
        ensures seen { OnOk result (Sees (F.state folder.old) self.old self.new (λ t. path.now ∷ [])) }
        ensures looks { OnOk result (LooksMore self.old.looked self.new.looked (F.state folder.old) (F.state folder.new)) }
        ensures kept { KeepsNodes self.old.part self.new.part }
        ensures full { IsErrOf result reads.TooLarge → IsFull self.new }
        ensures reads { ReadsOn result (F.state folder.old) (F.state folder.new) }
    {
        if !is_path(path) {
            return Ok(());
        }
        if self.looked.contains(TextRef { bytes: path }) {
            return Ok(());
        }
        if self.looked.len() >= NODES_MAX {
            return Err(TreeRead::TooLarge);
        }
        look_new(self.alloc, folder, &mut self.tree, &mut self.looked, path)
    }
}
