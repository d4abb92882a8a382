//! The table of the ELF information of a tree's files, by their paths.
#![tactic(auto)]

mod table;

pub use table::{Table, copy_of};
