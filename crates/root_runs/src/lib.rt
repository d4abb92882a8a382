//! `ldconfig -r ROOT` and `ldconfig -n DIR..`: updates of directories that have no manifest, and checks of what they would change.
#![tactic(auto)]

mod runs;
mod update;

pub use runs::run_options;
