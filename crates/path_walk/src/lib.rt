//! Path resolution in the tree of an image.
#![tactic(auto)]

mod files;
mod names;
mod places;
mod walk;

pub use files::{file_at, linked_file};
pub use names::{is_absolute, join, join_into, joined, next_name, parted};
pub use places::{parent_of, start_of, target_of};
pub use walk::{LINKS_MAX, Mode, WalkFault, is_plain_mode, resolve};
