//! Trials of the disk over a real directory: the same calls on it and on a disk in memory.
#![tactic(auto)]

mod faults;
mod host;
mod replacing;
mod texts;
mod turns;

use crate::faults::{try_read_faults, try_write_faults};
use crate::turns::try_turns;
use std::io;
use std::process::ExitCode;
use trial_devices::{Report, Trial};

fn main(rt: HostRuntime) -> io::Result<ExitCode> {
    let trial = Trial::new(rt)?;
    let mut report = Report::new(&rt);
    try_turns(&rt, &trial, &mut report)?;
    try_read_faults(&rt, &trial, &mut report)?;
    try_write_faults(&rt, &trial, &mut report)?;
    Ok(report.status())
}
