//! Tests of links that are made in a directory. They are a crate of their own, since a crate with tests is proved twice.
#![tactic(auto)]

#[cfg(test)]
mod making;
mod valid;

pub use valid::are_valid;
