//! Removal of nodes from a tree.
ghost use Rattle.std.specs.Prelude.{◌≡◌, ◌≢◌, [], ◌&&◌, ◌||◌, not, OnOk, IfOk, IfErr, MatchOption, IsTrue, false, true, length, ◌<◌};
ghost use Rattle.std.specs.List.{filter, list_any};
ghost use Rattle.std.specs.Str.{bytes_eq};
ghost use Rattle.image_tree.specs.Paths.{is_below, is_path, root};
ghost use Rattle.image_tree.specs.Tree.{has_below, clash_with};
ghost use Rattle.layer_union.specs.Steps.{is_file_from, is_from, IsChild};

use image_tree::{Kind, Node, Tree};
use lib_types::{NoMemory, Text};
use path_walk::{join, parted};
use std::alloc::Global;

// The path of the first child of a directory.
fn first_child(alloc: Global, tree: &Tree, path: &[u8]) -> Result<Option<Text>, NoMemory>
    requires { path.now ≢ [] }
    ensures { IfOk result (λ found. MatchOption found (has_below tree.now path.now ≡ false) (IsChild tree.now path.now)) }
{
    tree.know();
    match tree.children(path).next() {
        Some(name) => Ok(Some(join(alloc, path, name)?)),
        None => Ok(None),
    }
}

/// Removes the nodes below the path.
pub(crate) fn clear_below(alloc: Global, tree: &mut Tree, path: &[u8]) -> Result<(), NoMemory>
    requires { path.now ≢ [] }
    ensures { OnOk result (tree.new ≡ filter (λ e. not (is_below path.now e.0)) tree.old) }
{
    while let Some(child) = first_child(alloc, tree, path)? {
        let child = child.as_bytes();
        let _ = tree.remove(child);
        clear_below(alloc, tree, child)?;
    }
    Ok(())
}

/// Removes the node of the path and the nodes below it.
pub(crate) fn clear_from(alloc: Global, tree: &mut Tree, path: &[u8]) -> Result<(), NoMemory>
    requires { path.now ≢ [] }
    ensures { OnOk result (tree.new ≡ filter (λ e. not (is_from path.now e.0)) tree.old) }
{
    tree.know();
    let _ = tree.remove(path);
    clear_below(alloc, tree, path)
}

fn is_root(path: &[u8]) -> bool
    ensures { result ≡ bytes_eq path.now root }
{
    path == b"/".as_slice()
}

// Removes the file or link that is at the path or above it. A tree has at most one.
fn remove_file_from(tree: &mut Tree, path: &[u8])
    ensures { tree.new ≡ filter (λ e. not (is_file_from path.now e)) tree.old }
{
    tree.know();
    let mut at = path;
    while !is_root(at) {
        match tree.kind(at) {
            Kind::Absent => at = parted(at).0,
            Kind::Dir => return,
            _ => {
                let _ = tree.remove(at);
                return;
            }
        }
    }
}

/// Removes the nodes with which a node at the path would clash.
pub(crate) fn clear_clashes(
    alloc: Global,
    tree: &mut Tree,
    path: &[u8],
    node: &Node,
) -> Result<(), NoMemory>
    requires { IsTrue (is_path path.now) }
    ensures { OnOk result (tree.new ≡ filter (λ e. not (clash_with path.now node.now e)) tree.old) }
{
    tree.know();
    remove_file_from(tree, parted(path).0);
    match node {
        Node::Dir => Ok(()),
        _ => clear_below(alloc, tree, path),
    }
}
