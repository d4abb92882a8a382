//! Runs of the program's arguments over devices in memory for the tests of the command line, and the devices of a test row.
#![tactic(auto)]

mod rows;
mod words;

pub use rows::{Ending, devices_of, ends_so};
pub use words::{run_line, run_words};
