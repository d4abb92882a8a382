//! An update of a directory and a check of it, to their status and what they write on the output.
#![tactic(auto)]

mod answers;
mod runs;

pub use answers::{Shown, answer_check, answer_update};
pub use runs::{CheckRun, RootAsked, UpdateRun, run_check, run_update};
