//! The search of a directory that looks up only what it needs. It finds what a search of the directory's whole tree finds.
#![tactic(auto)]

mod fault;
mod finding;
mod planning;
mod sonames;
mod source;
mod tree;

pub use fault::SearchFault;
pub use finding::{FoundPart, find_part};
