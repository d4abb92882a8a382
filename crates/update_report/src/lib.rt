//! The text of an update's report.
#![tactic(auto)]

mod kinds;
mod lines;
mod listing;
mod skipping;

pub use kinds::{Findings, Skipped, Skips};
pub use listing::report;
pub use skipping::{skips, skips_in};
