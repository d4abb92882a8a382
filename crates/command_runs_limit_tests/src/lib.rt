//! Tests of the commands `update` and `batch` at the limits of an image: entries of a cache, nodes of a tree and bytes of a manifest; and of a
//! script: its bytes.
#![tactic(auto)]

#[cfg(test)]
mod limits;
