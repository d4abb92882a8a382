//! Tests of reading a directory's tree. They are a crate of their own, since a crate with tests is proved twice.
#![tactic(auto)]

#[cfg(test)]
mod image;
#[cfg(test)]
mod reading;
