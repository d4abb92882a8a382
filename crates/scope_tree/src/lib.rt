//! What a program loads, as a tree: each library below the object that first needed it.
#![tactic(auto)]

mod lines;
mod printing;

pub use printing::tree_text;
