//! Tests of the text of an update's report, a crate of their own since a crate with tests is proved twice.
#![tactic(auto)]

#[cfg(test)]
mod fixture;
#[cfg(test)]
mod texts;
