//! The union of the layers of a container image. It has the nodes of all layers that no layer above hides.
#![tactic(auto)]

mod clear;
mod layers;
mod marks;
mod node;

pub use layers::{Trees, UnionFault, union};
