//! Scripts of a session: edits of it and updates, one line after another. The commands `update` and `batch`.
#![tactic(auto)]

mod batch;
mod fault;
mod lines;
mod update;

pub use batch::{SCRIPT_MAX, run_batch};
pub use fault::{LineFault, ScriptFault};
pub use update::run_update;
