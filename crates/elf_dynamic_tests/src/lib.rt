//! Tests of the readers of ELF files, a crate of their own since a crate with tests is proved twice.
#![tactic(auto)]

mod sparse;

pub use sparse::Sparse;

#[cfg(test)]
mod abis;
#[cfg(test)]
mod headers;
#[cfg(test)]
mod objects;
#[cfg(test)]
mod rows;
#[cfg(test)]
mod sizes;
