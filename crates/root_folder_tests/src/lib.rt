//! Tests of the directory of an image in memory. They are a crate of their own, since a crate with tests is proved twice.
#![tactic(auto)]

#[cfg(test)]
mod calls;
#[cfg(test)]
mod crashes;
mod durable;
#[cfg(test)]
mod image;

pub use durable::link_durably;
