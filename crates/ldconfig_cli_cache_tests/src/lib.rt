//! Tests of the commands `print` and `lookup` over devices in memory: each kind of cache file, and failing devices.
#![tactic(auto)]

#[cfg(test)]
mod lookups;
#[cfg(test)]
mod prints;
#[cfg(test)]
mod run;
