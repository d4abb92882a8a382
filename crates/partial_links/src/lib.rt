//! A tree with a part of its planned links, as a crash or a failing call between two links leaves it: an update of it plans the other links
//! and makes the same cache. The crate has definitions and lemmas, and no function.
#![tactic(auto)]
