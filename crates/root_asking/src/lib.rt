//! The command `resolve`, for a directory that has no manifest. It only asks.
#![tactic(auto)]

mod fault;
mod reading;
mod resolve;

pub use resolve::resolve_root;
