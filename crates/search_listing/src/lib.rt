//! What an update prints: with `-v` the directories that were searched, and the libraries that were found there (ldconfig(8)), and with
//! `--check` the links that it would make.
#![tactic(auto)]

mod lines;
mod made;
mod named;
mod planned;
mod printing;

pub use planned::planned_lines;
pub use printing::listing;
