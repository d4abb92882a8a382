//! Trials of the directory of an image on a file system whose calls fail, and in which links take the place of directories.
#![tactic(auto)]

mod exchanges;
mod failing;
mod lasting;
mod leftovers;
mod steps;

use crate::exchanges::try_exchanges;
use crate::failing::{try_errors, try_other_errors};
use crate::lasting::try_lasting;
use crate::leftovers::{try_kept, try_leftovers, try_taken};
use std::io;
use std::process::ExitCode;
use trial_devices::{Report, Trial};

fn main(rt: HostRuntime) -> io::Result<ExitCode> {
    let trial = Trial::new(rt)?;
    let mut report = Report::new(&rt);
    try_errors(&rt, &trial, &mut report)?;
    try_other_errors(&rt, &trial, &mut report)?;
    try_lasting(&rt, &trial, &mut report)?;
    try_leftovers(&rt, &trial, &mut report)?;
    try_kept(&rt, &trial, &mut report)?;
    try_taken(&rt, &trial, &mut report)?;
    try_exchanges(&rt, &trial, &mut report)?;
    Ok(report.status())
}
