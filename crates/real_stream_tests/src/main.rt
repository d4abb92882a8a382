//! Trials of the standard streams: the same calls on them and on streams in memory.
#![tactic(auto)]

mod input;
mod output;

use crate::input::try_input;
use crate::output::{try_faults, try_output, try_terminal};
use std::io;
use std::process::ExitCode;
use trial_devices::{Report, Trial};

fn main(rt: HostRuntime) -> io::Result<ExitCode> {
    let trial = Trial::new(rt)?;
    let mut report = Report::new(&rt);
    try_output(&rt, &trial, &mut report)?;
    try_terminal(&rt, &trial, &mut report)?;
    try_faults(&rt, &trial, &mut report)?;
    try_input(&rt, &trial, &mut report)?;
    Ok(report.status())
}
