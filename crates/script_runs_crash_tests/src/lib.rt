//! Tests of the commands `update` and `layers` over a machine that stops at each writing call.
#![tactic(auto)]

#[cfg(test)]
mod crashes;
