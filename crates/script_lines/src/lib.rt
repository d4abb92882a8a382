//! Parsing the lines of a script of edits and updates.
#![tactic(auto)]

mod line;
mod words;

pub use line::{ScriptLine, read_line};
