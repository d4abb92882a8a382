//! Tests of the command `layers`.
#![tactic(auto)]

#[cfg(test)]
mod again;
#[cfg(test)]
mod faults;
#[cfg(test)]
mod limits;
#[cfg(test)]
mod rows;
#[cfg(test)]
mod stack;
