//! The arguments of `ldconfig -r ROOT` and of the other calls whose first argument is an option, with their values.
#![tactic(auto)]

mod command;
mod fault;
mod found;
mod language;
mod reading;
mod rejection;

pub use command::{RootCommand, RootOptions, is_root_command};
pub use fault::{Rejection, RootWordsFault, Why};
pub use reading::command_of;
