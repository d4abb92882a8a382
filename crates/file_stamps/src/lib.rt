//! The analyses of an image's files. Each file is read once, or its analysis comes from a stamp.
#![tactic(auto)]

mod files;
mod stamped;

pub use files::{Files, read_files};
