//! Tests of the walk from component to component, a crate of their own since a crate with tests is proved twice.
#![tactic(auto)]

#[cfg(test)]
mod files;
#[cfg(test)]
mod trees;
#[cfg(test)]
mod walks;
