//! Tests of updaters and loaders that run at once: a table of data/, and schedules that are enumerated or pseudo-random.
#![tactic(auto)]

mod plain;
mod rows;
mod schedules;
mod shown;

use crate::rows::Rounds;
use crate::schedules::try_schedules;
use std::io;
use std::process::ExitCode;
use table_rows::{status, try_tables};

fn main(rt: HostRuntime) -> io::Result<ExitCode> {
    let rows = try_tables::<Rounds>(&rt, &["worlds"])?;
    let schedules = try_schedules(&rt)?;
    Ok(status(rows && schedules))
}
