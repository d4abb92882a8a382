//! The command that the program's arguments name, with its values.
#![tactic(auto)]

mod fault;
mod kinds;
mod language;
mod line;
mod reading;
mod refusal;
mod values;
mod verb;

pub use fault::WordsFault;
pub use kinds::{Command, Form, Lookup, Resolve};
pub use line::CommandLine;
pub use reading::line_of;
pub use refusal::refusal_line;
pub use verb::{Verb, help_of};
