//! Looks up a name in a cache as the loader does, without allocating memory.
#![tactic(auto)]

mod abis;
mod check;
mod choice;
mod counted;
mod entries;
mod probes;
mod search;

pub use check::{Unsorted, sorted, sorted_cache};
pub use counted::Counted;
pub use entries::Sorted;
pub use probes::{Probe, Probes};
pub use search::lookup;
