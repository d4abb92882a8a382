//! Writes the cache file that glibc's loader reads.
#![tactic(auto)]

mod names;
mod numbers;
mod writer;

pub use writer::write;
