//! The tree of an image's directory, read as a whole.
#![tactic(auto)]

mod fault;
mod looking;
mod reading;

pub use fault::TreeRead;
pub use reading::read_tree;
