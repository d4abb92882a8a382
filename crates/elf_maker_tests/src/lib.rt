//! Tests of the maker of ELF files, a crate of their own since a crate with tests is proved twice.
#![tactic(auto)]

#[cfg(test)]
mod files;
#[cfg(test)]
mod limits;
