//! Tests of updates of a directory in which a call fails or the machine stops: which links and caches are left, and that the next update
//! repairs them. The rows are in data/failures.
#![tactic(auto)]

mod crashes;
mod state;
mod trial;
mod turns;

use crate::trial::Failures;
use std::io;
use std::process::ExitCode;
use table_rows::{status, try_tables};

fn main(rt: HostRuntime) -> io::Result<ExitCode> {
    Ok(status(try_tables::<Failures>(&rt, &["failures"])?))
}
