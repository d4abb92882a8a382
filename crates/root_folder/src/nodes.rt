//! What is at a path: a node, or nothing.
ghost use Rattle.std.specs.Prelude.{◌≡◌, IfOk};
ghost use Rattle.std.specs.Option.{option_copied};
ghost use Rattle.root_folder.specs.Found.{found_eq, node_eq};

use lib_types::{NoMemory, Text};
use std::alloc::Global;
use tree_face::Node;

fn copy_of(alloc: Global, node: &Node) -> Result<Node, NoMemory>
    ensures { IfOk result (λ copy. copy ≡ node.now) }
{
    match node {
        Node::Dir => Ok(Node::Dir),
        Node::File { key, id } => Ok(Node::File {
            key: key.copy(alloc)?,
            id: *id,
        }),
        Node::Link { target } => Ok(Node::Link {
            target: target.copy(alloc)?,
        }),
    }
}

/// A copy of the node, if there is one.
pub(crate) fn copy_found(alloc: Global, found: Option<&Node>) -> Result<Option<Node>, NoMemory>
    ensures { IfOk result (λ copy. copy ≡ option_copied found.entry) }
{
    match found {
        Some(node) => Ok(Some(copy_of(alloc, node)?)),
        None => Ok(None),
    }
}

fn is_same(a: &Node, b: &Node) -> bool
    ensures { result ≡ node_eq a.now b.now }
{
    match a {
        Node::Dir => match b {
            Node::Dir => true,
            _ => false,
        },
        Node::File { key, id } => match b {
            Node::File {
                key: other,
                id: its,
            } => key == other && id == its,
            _ => false,
        },
        Node::Link { target } => match b {
            Node::Link { target: other } => target == other,
            _ => false,
        },
    }
}

/// Whether both are the same node, or both are nothing.
pub(crate) fn is_same_found(a: Option<&Node>, b: Option<&Node>) -> bool
    ensures { result ≡ found_eq (option_copied a.entry) (option_copied b.entry) }
{
    match a {
        Some(a) => match b {
            Some(b) => is_same(a, b),
            None => false,
        },
        None => b.is_none(),
    }
}
