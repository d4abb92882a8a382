//! The writes of a run to a directory: the links, then the cache, then the auxiliary cache.
#![tactic(auto)]

mod fault;
mod writing;

pub use fault::WriteFault;
pub use writing::{RootWrites, write_root};
