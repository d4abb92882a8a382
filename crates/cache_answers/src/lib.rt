//! The commands `print` and `lookup` on a directory or a cache file, and the texts that are only printed.
#![tactic(auto)]

mod lookup;
mod print;

pub use lookup::{Sought, look_up, note_other_abis};
pub use print::{note_asked, print_file, print_in_root, print_text, print_usage};
