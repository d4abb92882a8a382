//! The command `layers`: an update of the image that layers make.
#![tactic(auto)]

mod fault;
mod layers;
mod union;

pub use layers::run_layers;
