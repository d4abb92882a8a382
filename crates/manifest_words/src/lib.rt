//! The words of a manifest's line (mtree(5)): escapes, paths, and keywords with their values.
#![tactic(auto)]

mod escape;
mod fault;
mod keys;
mod paths;
mod plain;

pub use escape::decode;
pub use fault::LineKind;
pub use keys::{Given, Keys, LineType, fault_unless, first_fault, given_word, no_keys, unset_word};
pub use paths::{after_first, append_names, is_directive, is_full};
pub use plain::KnownPath;
