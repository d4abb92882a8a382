//! Tests of the union of layers, a crate of their own since a crate with tests is proved twice.
#![tactic(auto)]

#[cfg(test)]
mod faults;
#[cfg(test)]
mod layers;
#[cfg(test)]
mod unions;
