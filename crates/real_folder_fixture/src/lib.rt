//! Directories of images for tests: on the file system and in memory, with calls of a `Folder` and their results.
#![tactic(auto)]

mod answers;
mod host;
mod image;
mod nodes;
mod step;

pub use answers::{names_of, node_of_link};
pub use host::{Row, inode_of, is_there, no_memory, node_on_disk, temporaries_in};
pub use image::{IMAGE, Image, LONG_NAME, RUN, real_folder};
pub use step::{Answer, Step, is_same_answer};
