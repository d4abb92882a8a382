//! Tests of the tree of an image. They are a crate of their own, since a crate with tests is proved twice.
#![tactic(auto)]

#[cfg(test)]
mod listing;
#[cfg(test)]
mod tree;
