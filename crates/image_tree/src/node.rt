//! The nodes of a tree.
ghost use Rattle.std.specs.Prelude.{◌≡◌};
ghost use Rattle.image_tree.specs.Node.{is_node, is_dir, is_key, is_target, has_no_nul};

use crate::path::PATH_MAX;
use lib_types::{Text, is_utf8};

/// The identity of a file: device, inode, ctime and size. The ctime is in nanoseconds since the epoch, the size in bytes.
#[derive(Clone, Copy, Debug, PartialEq, Eq)]
pub struct Id {
    pub dev: u64,
    pub inode: u64,
    pub ctime: u64,
    pub size: u64,
}

/// A directory, a file or a link.
#[derive(Drop)]
pub enum Node {
    Dir,
    /// A regular file. A store has its content under this key.
    File { key: Text, id: Option<Id> },
    /// A symbolic link with this target.
    Link { target: Text },
}

/// The maximum length of a content key or a link target in bytes.
pub const NODE_TEXT_MAX: usize = PATH_MAX;

/// Whether the node's key or target, if it has one, is valid.
pub fn is_node(node: &Node) -> bool
    ensures { result ≡ is_node node.now }
{
    match node {
        Node::Dir => true,
        Node::File { key, .. } => is_key(key.as_bytes()),
        Node::Link { target } => is_target(target.as_bytes()),
    }
}

/// Whether the node is a directory.
pub(crate) fn is_dir(node: &Node) -> bool
    ensures { result ≡ is_dir node.now }
{
    match node {
        Node::Dir => true,
        _ => false,
    }
}

fn is_key(key: &[u8]) -> bool
    ensures { result ≡ is_key key.now }
{
    is_target(key) && is_utf8(key)
}

fn is_target(target: &[u8]) -> bool
    ensures { result ≡ is_target target.now }
{
    !target.is_empty() && target.len() <= NODE_TEXT_MAX && has_no_nul(target)
}

fn has_no_nul(bytes: &[u8]) -> bool
    ensures { result ≡ has_no_nul bytes.now }
{
    bytes.iter().all(|&b| b != 0)
}
