//! The paths of a directory that are looked up, and the directories in it that are listed, when they are needed. Each path is looked
//! up once, and each directory is listed once.
#![tactic(auto)]

mod fault;
mod listing;
mod looked;
mod walking;

pub use listing::NameTest;
pub use looked::LookedPart;
