//! Tests of manifests: a table of texts, and the limits. They are a crate of their own, since a crate with tests is
//! proved twice.
#![tactic(auto)]

#[cfg(test)]
mod limits;
#[cfg(test)]
mod lines;
#[cfg(test)]
mod single;
#[cfg(test)]
mod table;
