//! Lists a directory and looks up each of its names.
ghost use Rattle.std.specs.Prelude.{◌≡◌, ◌++◌, ◌∷◌, [], true, IfErr, IfOk, IfSome, IsErrOf, IsSomeAnd, IsTrue, OnOk};
ghost use Rattle.image_tree.specs.Node.{is_dir};
ghost use Rattle.image_tree.specs.Paths.{join};
ghost use Rattle.image_tree.specs.Tree.{IsFullFor, IsTree, children_of, kind_at};
ghost use Rattle.image_tree.specs.declared.tree.Kind.TheVariants as kinds;
ghost use Rattle.root_tree.specs.ReadTree.{IsTooLarge, ReadsOn};
ghost use Rattle.root_tree.specs.SoFar.{Grows, IfPart, IsFullAt, IsNew, LooksNew, is_of_adding, is_of_call, listed, new_at, seen, so_far, with_found, with_node};
ghost use Rattle.root_tree.specs.declared.fault.TreeRead.TheVariants as reads;
ghost use Rattle.tree_face.specs.Known.{IfKnown};
ghost use Rattle.lib_types.specs.Counts.{raised};

use crate::fault::{TreeRead, fault_at};
use lib_types::{NoMemory, Text, Texts};
use path_walk::join;
use root_folder::{Folder, FolderRead};
use std::alloc::Global;
use tree_face::{Node, Tree, TreeFault, is_path};

fn is_dir(node: &Node) -> bool
    ensures { result ≡ is_dir node.now }
{
    match node {
        Node::Dir => true,
        _ => false,
    }
}

// Adds a directory that is still to be listed.
fn add_dir(todo: &mut Vec<Text>, dir: Text) -> Result<(), NoMemory>
    ensures { OnOk result (todo.new.items ≡ todo.old.items ++ dir ∷ []) }
{
    todo.push(dir)?;
    Ok(())
}

// Adds a node. If it is a directory, it is still to be listed. A node that clashes with the other nodes is skipped. This
// can only happen if the directory changes while it is read.
#[tactic(auto, using(crate::proofs::Added::grows))]
fn add_node(tree: &mut Tree, todo: &mut Vec<Text>, path: Text, node: Node) -> Result<(), TreeRead>
    requires { IsNew tree.old path node }
    ensures added { OnOk result (so_far tree.new todo.new.items ≡ with_node (so_far tree.old todo.old.items) path node) }
    ensures grows { OnOk result (Grows (so_far tree.old todo.old.items) (so_far tree.new todo.new.items)) }
    ensures full { IsErrOf result reads.TooLarge → IsFullFor tree.old path node }
    ensures others { IfErr result (λ fault. is_of_adding fault ≡ true) }
{
    tree.know();
    let is_dir = is_dir(&node);
    match tree.put(path.as_bytes(), node) {
        Ok(()) => {}
        Err(TreeFault::Clash) => return Ok(()),
        Err(TreeFault::Full) => return Err(TreeRead::TooLarge),
        Err(TreeFault::NoMemory) => return Err(TreeRead::NoMemory),
    }
    if is_dir {
        add_dir(todo, path)?;
    }
    Ok(())
}

// Adds the node that was found, if there is one.
fn add_found(
    tree: &mut Tree,
    todo: &mut Vec<Text>,
    path: Text,
    found: Option<Node>,
) -> Result<(), TreeRead>
    requires { IfSome found (λ node. IsNew tree.old path node) }
    ensures added { OnOk result (so_far tree.new todo.new.items ≡ with_found (so_far tree.old todo.old.items) path found) }
    ensures grows { OnOk result (Grows (so_far tree.old todo.old.items) (so_far tree.new todo.new.items)) }
    ensures full { IsErrOf result reads.TooLarge → IsSomeAnd found (λ node. IsFullFor tree.old path node) }
    ensures others { IfErr result (λ fault. is_of_adding fault ≡ true) }
{
    match found {
        Some(node) => add_node(tree, todo, path, node),
        None => Ok(()),
    }
}

// What is at a path. None if the tree already has a node there, or if the text isn't a valid path.
fn look_new<F: Folder>(
    alloc: Global,
    folder: &mut F,
    tree: &Tree,
    path: &[u8],
) -> Result<Option<Node>, FolderRead>
    ensures new { IfOk result (λ found. IfKnown (F.state folder.old).contents (λ c. found ≡ new_at c.now tree.now path.now)) }
    ensures valid { IfOk result (λ found. IfSome found (λ node. IsNew tree.now path.now node)) }
    ensures looks { LooksNew result (F.state folder.old) (F.state folder.new) }
{
    if !is_path(path) || tree.node(path).is_some() {
        return Ok(None);
    }
    folder.look(alloc, path)
}

// Looks up a name of a directory, unless the tree already has a node there.
#[tactic(auto, using(crate::proofs::Sees::is_full))]
fn see<F: Folder>(
    alloc: Global,
    folder: &mut F,
    tree: &mut Tree,
    todo: &mut Vec<Text>,
    dir: &[u8],
    name: &[u8],
) -> Result<(), TreeRead>
    ensures seen { OnOk result (IfKnown (F.state folder.old).contents
        (λ c. so_far tree.new todo.new.items ≡ seen c.now dir.now (so_far tree.old todo.old.items) name.now)) }
    ensures grows { OnOk result (Grows (so_far tree.old todo.old.items) (so_far tree.new todo.new.items)) }
    ensures full { IsErrOf result reads.TooLarge → IfKnown (F.state folder.old).contents (λ c. IsFullAt c.now tree.old (join dir.now name.now)) }
    ensures lists { (F.state folder.new).counts.lists ≡ (F.state folder.old).counts.lists }
    ensures is_tree { IsTree tree.old }
    ensures reads { ReadsOn result (F.state folder.old) (F.state folder.new) }
{
    tree.know();
    let path = join(alloc, dir, name)?;
    match look_new(alloc, folder, tree, path.as_bytes()) {
        Ok(found) => add_found(tree, todo, path, found),
        Err(fault) => Err(fault_at(fault, path)),
    }
}

// The names in a directory.
fn names_in<F: Folder>(alloc: Global, folder: &mut F, dir: Text) -> Result<(Text, Texts), TreeRead>
    ensures dir { IfOk result (λ listed. listed.0 ≡ dir) }
    ensures names { IfOk result (λ listed. IfKnown (F.state folder.old).contents (λ c. (kind_at c.now dir ≡ kinds.Dir) × (listed.1 ≡ children_of c.now dir))) }
    ensures lists { (F.state folder.new).counts.lists ≡ raised (F.state folder.old).counts.lists 1 }
    ensures others { IfErr result (λ fault. is_of_call fault ≡ true) }
    ensures reads { ReadsOn result (F.state folder.old) (F.state folder.new) }
{
    match folder.names(alloc, dir.as_bytes()) {
        Ok(names) => Ok((dir, names)),
        Err(fault) => Err(fault_at(fault, dir)),
    }
}

/// Lists a directory, and looks up each name in it.
#[tactic(auto, unfolding(crate::specs::SoFar::listed))]
pub(crate) fn list<F: Folder>(
    alloc: Global,
    folder: &mut F,
    tree: &mut Tree,
    todo: &mut Vec<Text>,
    dir: Text,
) -> Result<(), TreeRead>
    ensures dir { OnOk result (IfKnown (F.state folder.old).contents (λ c. kind_at c.now dir ≡ kinds.Dir)) }
    ensures listed { OnOk result (IfKnown (F.state folder.old).contents
        (λ c. so_far tree.new todo.new.items ≡ listed c.now dir (so_far tree.old todo.old.items))) }
    ensures grows { OnOk result (Grows (so_far tree.old todo.old.items) (so_far tree.new todo.new.items)) }
    ensures too_large { IsErrOf result reads.TooLarge → IfPart (F.state folder.old) tree.old (IsTooLarge (F.state folder.old)) }
    ensures lists { OnOk result ((F.state folder.new).counts.lists ≡ raised (F.state folder.old).counts.lists 1) }
    ensures is_tree { IsTree tree.old }
    ensures reads { ReadsOn result (F.state folder.old) (F.state folder.new) }
{
    tree.know();
    let (dir, names) = names_in(alloc, folder, dir)?;
    for name in names.as_slice() {
        see(alloc, folder, tree, todo, dir.as_bytes(), name.as_bytes())?;
    }
    Ok(())
}
