//! Trials of the store over a real directory: the same calls on it and on a store in memory.
#![tactic(auto)]

mod changes;
mod faults;
mod image;
mod turns;

use crate::changes::try_changes;
use crate::faults::try_faults;
use crate::image::make_image;
use crate::turns::try_turns;
use std::io;
use std::process::ExitCode;
use trial_devices::{Report, Trial};

fn main(rt: HostRuntime) -> io::Result<ExitCode> {
    let trial = Trial::new(rt)?;
    let mut report = Report::new(&rt);
    make_image(&rt)?;
    try_turns(&rt, &trial, &mut report)?;
    try_faults(&rt, &trial, &mut report)?;
    try_changes(&rt, &trial, &mut report)?;
    Ok(report.status())
}
