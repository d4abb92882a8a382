//! The tree of an image: directories, files and links at their paths.
#![tactic(auto)]

mod node;
mod path;
mod tree;

pub use node::{Id, NODE_TEXT_MAX, Node, is_node};
pub use path::{PATH_MAX, is_below, is_kept, is_path};
pub use tree::{Children, Kind, Listing, NODES_MAX, Nodes, Tree, TreeFault};
