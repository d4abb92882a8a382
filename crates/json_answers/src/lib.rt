//! The answers of the commands that ask, as JSON texts.
#![tactic(auto)]

mod cache;
mod lookup;
mod object;
mod programs;

pub use cache::cache_json;
pub use lookup::lookup_json;
pub use programs::programs_json;
