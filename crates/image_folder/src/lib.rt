//! A directory whose files are reached without following a symbolic link in it, and the lock on it.
#![tactic(auto)]

mod dir_lock;
mod files;
mod folders;
mod held_file;
mod holder;
mod image_folder;

pub use dir_lock::{DirLock, LockFault};
pub use files::{changed, is_own, left_behind, open_file, read_whole, shorter};
pub use folders::Missing;
pub use held_file::{HeldFile, Lock};
pub use image_folder::ImageFolder;
