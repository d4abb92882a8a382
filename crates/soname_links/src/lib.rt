//! The links planned for an image, and the sonames to report.
#![tactic(auto)]

mod applying;
mod groups;
mod kinds;
mod marks;
mod planning;
mod summary;
mod surveying;
mod wanted_table;
mod winners;

pub use applying::{apply, is_plan};
pub use kinds::{ApplyFault, EntryFault, Survey};
pub use marks::{blocked, mixed};
pub use planning::plan;
pub use surveying::survey;
pub use winners::entries;
