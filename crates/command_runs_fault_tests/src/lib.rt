//! Tests of the command `update` over devices each of whose calls fails, and of several updaters at one disk.
#![tactic(auto)]

#[cfg(test)]
mod faults;
#[cfg(test)]
mod updaters;
