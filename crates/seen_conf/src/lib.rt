//! Which paths a reading of the conf files looks up: a part of the tree that agrees at these paths gives the same reading.
#![tactic(auto)]
