//! The directory of an image as an I/O interface: the names and nodes in it, and the links that are made in it.
#![tactic(auto)]

mod folder;
mod memory;
mod nodes;
mod whole_tree;

pub use folder::{Folder, FolderCall, FolderCounts, FolderRead};
pub use memory::MemFolder;
