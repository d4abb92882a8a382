//! The manifest of an image (mtree(5)): read into a tree, and written from a tree.
#![tactic(auto)]

mod dirs;
mod entry;
mod fault;
mod line;
mod reader;
mod single;
mod value;
mod writer;

pub use fault::{EntryLineFault, MANIFEST_MAX, ManifestFault};
pub use manifest_words::LineKind;
pub use reader::read;
pub use single::{read_entry, read_path};
pub use writer::{EMPTY_MANIFEST, write};
