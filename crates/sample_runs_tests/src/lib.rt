//! Tests of the command `sample`.
#![tactic(auto)]

#[cfg(test)]
mod samples;
