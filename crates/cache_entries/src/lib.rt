//! The entries of a cache: the winner of each soname in a search directory, and its path.
#![tactic(auto)]

mod counts;
mod fault;
mod links_of;
mod listing;
mod reached;
mod winner;
mod winners;

pub use fault::EntryFault;
pub use listing::entries_by;
