//! The symlinks planned for an image, and the sonames to report.
#![tactic(auto)]

mod kinds;

pub use kinds::{Mark, Marks, Plan, Planned};
