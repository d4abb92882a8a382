//! Sets of texts, sorted texts, and the string tables of files. Also lists that store equal items once.
#![tactic(auto)]

mod backward;
mod hosts;
mod layout;
mod order;
mod pool;
mod shared;
mod table;
mod text_set;
mod texts;

pub use order::ascending;
pub use pool::{Pool, Sealed};
pub use shared::{Items, Shared};
pub use table::Table;
pub use text_set::{TextSet, distinct};
pub use texts::Texts;

#[cfg(test)]
mod tests;
