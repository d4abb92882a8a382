//! The patterns of conf files: which names they match, and which files of a tree.
#![tactic(auto)]

mod glob;
pub mod patterns;
mod pieces;
mod set;

pub use glob::glob_match;
