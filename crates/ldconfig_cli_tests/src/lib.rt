//! Tests of the command `update` that are not rows of a table: devices that never fail, arguments that are not a command, and the exit
//! statuses. Images and their errors are rows of `ldconfig_cli_image_tests`.
#![tactic(auto)]

#[cfg(test)]
mod refusals;
#[cfg(test)]
mod sure;
