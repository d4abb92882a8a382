//! Tests of what is looked at of a directory. They are a crate of their own, since a crate with tests is proved twice.
#![tactic(auto)]

#[cfg(test)]
mod calls;
