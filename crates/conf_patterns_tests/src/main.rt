//! Tests of the patterns of conf files. The table is a file of data/.
#![tactic(auto)]

mod globs;

use crate::globs::Globs;
use std::io;
use std::process::ExitCode;
use table_rows::{status, try_tables};

fn main(rt: HostRuntime) -> io::Result<ExitCode> {
    Ok(status(try_tables::<Globs>(&rt, &["globs"])?))
}
