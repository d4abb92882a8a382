//! The union of layers.
ghost use Rattle.std.specs.Prelude.{◌≡◌, ◌≢◌, ◌<◌, ◌≤◌, ◌||◌, ℕ, None, Some, MatchOption, OnOk, OnErr, IfOk, IfErr, IsTrue, false, true, not, [], ◌+◌, length, position, slice_index_or, take, Err};
ghost use Rattle.std.specs.List.{filter, list_any};
ghost use Rattle.image_tree.specs.Tree.{is_entry, IsPathSorted};
ghost use Rattle.image_tree.specs.declared.tree.TheConstants.{NODES_MAX};
ghost use Rattle.layer_union.specs.Steps.{clears, all_put, IsFree, applied, IsBadFault, IsFullFault};
ghost use Rattle.layer_union.specs.Union.{IsUnion, AreSound, IsBadAt, IsTooLarge};
ghost use Rattle.layer_union.specs.Whiteouts.{is_bad, is_special, makes_opaque, whites_out};

use crate::clear::{clear_below, clear_clashes, clear_from};
use crate::marks::{is_bad, is_opaque_name, is_reserved, is_special, marked_name};
use crate::node::copy_of;
use image_tree::{Node, Tree, TreeFault};
use lib_types::{NoMemory, Seq};
use path_walk::{join, parted};
use std::alloc::Global;

/// The trees of layers, the lowest layer first.
pub type Trees = Seq<Tree>;

/// Why layers have no union. Layers and nodes are counted from 0, the nodes of a layer in the order of their paths.
#[derive(Clone, Copy, Debug, PartialEq, Eq)]
pub enum UnionFault {
    /// The rest of a whiteout's name isn't a name.
    BadWhiteout { layer: usize, node: usize },
    /// The union of the layers up to this one has more than `NODES_MAX` nodes.
    Full { layer: usize },
    NoMemory,
}

impl From<NoMemory> for UnionFault {
    ghost use Rattle.layer_union.specs.declared.layers.UnionFault.TheVariants as faults;

    ghost from_gives = { λ _ fault. fault ≡ faults.NoMemory };

    fn from(_: NoMemory) -> UnionFault {
        UnionFault::NoMemory
    }
}

// Removes what a special path of a layer hides.
fn clear_marked(alloc: Global, tree: &mut Tree, path: &[u8]) -> Result<(), NoMemory>
    requires { IsTrue (is_special path.now) }
    ensures { OnOk result (tree.new ≡ filter (λ e. not (whites_out path.now e.0 || makes_opaque path.now e.0)) tree.old) }
{
    let (folder, name) = parted(path);
    if is_special(folder) {
        return Ok(());
    }
    if is_opaque_name(name) {
        return clear_below(alloc, tree, folder);
    }
    if is_reserved(name) {
        return Ok(());
    }
    let marked = join(alloc, folder, marked_name(name))?;
    clear_from(alloc, tree, marked.as_bytes())
}

// Removes what an entry of a layer hides, except the node at its own path.
fn clear_by(alloc: Global, tree: &mut Tree, path: &[u8], node: &Node) -> Result<(), NoMemory>
    requires { IsTrue (is_entry (path.now, node.now)) }
    ensures { OnOk result (tree.new ≡ filter (λ e. not (clears (path.now, node.now) e)) tree.old) }
{
    if is_special(path) {
        clear_marked(alloc, tree, path)
    } else {
        clear_clashes(alloc, tree, path, node)
    }
}

// Removes what a layer hides, except the nodes that its own nodes replace.
fn clear_all(alloc: Global, tree: &mut Tree, layer: &Tree) -> Result<(), NoMemory>
    ensures { OnOk result (tree.new ≡ filter (λ e. not (list_any (λ r. clears r e) layer.now)) tree.old) }
{
    for (path, node) in layer.nodes() {
        clear_by(alloc, tree, path, node)?;
    }
    Ok(())
}

// Puts the nodes of a layer into the tree.
fn put_all(alloc: Global, tree: &mut Tree, layer: &Tree) -> Result<(), TreeFault>
    requires { IsFree tree.old layer.now }
    ensures done { OnOk result (tree.new ≡ all_put tree.old layer.now) }
    ensures clash { result ≢ Err TreeFault.Clash }
    ensures full { result ≡ Err TreeFault.Full → NODES_MAX < length (all_put tree.old layer.now) }
{
    for (path, node) in layer.nodes() {
        if !is_special(path) {
            tree.put(path, copy_of(alloc, node)?)?;
        }
    }
    Ok(())
}

// The index of the layer's first whiteout whose rest isn't a name.
fn bad_mark(layer: &Tree) -> Option<usize>
    ensures { result ≡ position (λ e. is_bad e.0) layer.now }
{
    layer.nodes().position(|(path, _)| is_bad(path))
}

// Whether the tree has special paths.
fn has_special(tree: &Tree) -> bool
    ensures { result ≡ list_any (λ e. is_special e.0) tree.now }
{
    tree.nodes().any(|(path, _)| is_special(path))
}

// Changes the tree into the union of it and a layer above it.
fn merge(alloc: Global, tree: &mut Tree, layer: &Tree, index: usize) -> Result<(), UnionFault>
    ensures applied { OnOk result (tree.new ≡ applied tree.old layer.now) }
    ensures few { OnOk result (length tree.new ≤ NODES_MAX) }
    ensures good { OnOk result (position (λ e. is_bad e.0) layer.now ≡ None) }
    ensures bad { IfErr result (λ fault. IsBadFault layer.now index fault) }
    ensures full { IfErr result (λ fault. IsFullFault tree.old layer.now index fault) }
{
    if let Some(node) = bad_mark(layer) {
        return Err(UnionFault::BadWhiteout { layer: index, node });
    }
    clear_all(alloc, tree, layer)?;
    match put_all(alloc, tree, layer) {
        Ok(()) => {
            tree.know();
            Ok(())
        }
        Err(TreeFault::Full) => Err(UnionFault::Full { layer: index }),
        Err(_) => Err(UnionFault::NoMemory),
    }
}

// Changes the tree into the union of it and a layer above it. Over nothing, a layer without special paths becomes the union itself. No
// node of it is copied, as the lowest layer often has most of an image's nodes.
#[tactic(auto, using(crate::proofs::Lowest::lowest, crate::proofs::Lowest::good_plain))]
fn add_layer(alloc: Global, tree: &mut Tree, layer: Tree, index: usize) -> Result<(), UnionFault>
    ensures applied { OnOk result (tree.new ≡ applied tree.old layer) }
    ensures few { OnOk result (length tree.new ≤ NODES_MAX) }
    ensures sorted { IsPathSorted layer }
    ensures good { OnOk result (position (λ e. is_bad e.0) layer ≡ None) }
    ensures bad { IfErr result (λ fault. IsBadFault layer index fault) }
    ensures full { IfErr result (λ fault. IsFullFault tree.old layer index fault) }
{
    layer.know();
    if tree.len() == 0 && !has_special(&layer) {
        *tree = layer;
        return Ok(());
    }
    merge(alloc, tree, &layer, index)
}

/// The union of the layers.
pub fn union(alloc: Global, layers: Trees) -> Result<Tree, UnionFault>
    ensures union { IfOk result (IsUnion layers) }
    ensures sound { IfOk result (λ _. AreSound layers (length layers)) }
    ensures bad { (layer node : ℕ) → result ≡ Err (UnionFault.BadWhiteout layer node) → IsBadAt layers layer node }
    ensures full { (layer : ℕ) → result ≡ Err (UnionFault.Full layer) → IsTooLarge layers layer }
{
    let mut tree = Tree::new(alloc);
    for (index, layer) in layers.into_vec().into_iter().enumerate() {
        add_layer(alloc, &mut tree, layer, index)?;
    }
    Ok(tree)
}
