//! The files that programs need: themselves, their interpreters, their libraries, and each link on the way.
#![tactic(auto)]

mod files;
mod interpreters;
mod printing;

pub use files::{NeededFiles, needed_files};
pub use printing::list_text;
