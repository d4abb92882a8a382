//! Copies of nodes.
ghost use Rattle.std.specs.Prelude.{◌≡◌, IfOk};

use image_tree::Node;
use lib_types::NoMemory;
use std::alloc::Global;

/// A copy of the node.
pub(crate) fn copy_of(alloc: Global, node: &Node) -> Result<Node, NoMemory>
    ensures { IfOk result (λ copy. copy ≡ node.now) }
{
    match node {
        Node::Dir => Ok(Node::Dir),
        Node::File { key, id } => Ok(Node::File {
            key: key.copy(alloc)?,
            id: *id,
        }),
        Node::Link { target } => Ok(Node::Link {
            target: target.copy(alloc)?,
        }),
    }
}
