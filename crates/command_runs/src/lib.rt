//! The commands of `ldconfig`, over any devices.
#![tactic(auto)]

mod command;

pub use command::{refuse_arguments, run_command};
pub use command_status::{ScriptKind, Status};
