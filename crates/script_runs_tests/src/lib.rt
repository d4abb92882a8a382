//! Tests of the command `batch` over devices that fail, each at each of its calls, and over a machine that stops.
#![tactic(auto)]

#[cfg(test)]
mod crashes;
#[cfg(test)]
mod faults;
#[cfg(test)]
mod script;
#[cfg(test)]
mod sources;
