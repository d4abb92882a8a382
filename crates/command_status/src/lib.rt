//! How a command ends: its status, and the fault line of that status.
#![tactic(auto)]

mod ending;
mod fault_line;
mod output;
mod status;

pub use ending::{Answer, Fault, end};
pub use output::{add_fault_line, put_fault_line};
pub use status::{LayerKind, ScriptKind, Status};
