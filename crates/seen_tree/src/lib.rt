//! The part of a directory's tree that was looked up. Each path is looked up once.
#![tactic(auto)]

mod fault;
mod part;

pub use part::SeenPart;
