//! The command line of `ldconfig`, over any devices.
#![tactic(auto)]

mod arguments;
mod command_line;

pub use arguments::Arguments;
pub use command_line::{run, run_on};
