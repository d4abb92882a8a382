//! Tests of caches that are read, a crate of their own since a crate with tests is proved twice.
#![tactic(auto)]

#[cfg(test)]
mod caches;
#[cfg(test)]
mod changes;
#[cfg(test)]
mod defects;
#[cfg(test)]
mod plain;
#[cfg(test)]
mod prints;
