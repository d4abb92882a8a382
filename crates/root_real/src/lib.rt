//! The directory of an image on a file system: the names and nodes in it, and the links that are made in it.
#![tactic(auto)]

mod extent;
mod links;
mod listing;
mod nodes;
mod paths;
mod real_folder;
mod temporary;

pub use real_folder::RootFolder;
