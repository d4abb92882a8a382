//! The trees of the layers of a container image, from their manifests in a store.
#![tactic(auto)]

mod fault;
mod reading;

pub use fault::LayersFault;
pub use reading::read_trees;
