//! Trials of the directory of an image on a file system: the same calls on it and on a directory in memory.
#![tactic(auto)]

mod large;
mod libraries;
mod places;
mod turns;

use crate::large::{try_deep, try_many};
use crate::libraries::try_libraries;
use crate::places::{try_roots, try_special, try_targets};
use crate::turns::try_turns;
use std::io;
use std::process::ExitCode;
use trial_devices::{Report, Trial};

fn main(rt: HostRuntime) -> io::Result<ExitCode> {
    let trial = Trial::new(rt)?;
    let mut report = Report::new(&rt);
    try_turns(&rt, &trial, &mut report)?;
    try_many(&rt, &trial, &mut report)?;
    try_deep(&rt, &trial, &mut report)?;
    try_roots(&rt, &trial, &mut report)?;
    try_targets(&rt, &trial, &mut report)?;
    try_special(&rt, &trial, &mut report)?;
    try_libraries(&rt, &trial, &mut report)?;
    Ok(report.status())
}
