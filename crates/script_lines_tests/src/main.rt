//! Tests of the lines of a script, each by itself. The table is a file of data/.
#![tactic(auto)]

mod shown;
mod trial;

use crate::trial::Lines;
use std::io;
use std::process::ExitCode;
use table_rows::{status, try_tables};

const TABLES: &[&str] = &["lines"];

fn main(rt: HostRuntime) -> io::Result<ExitCode> {
    Ok(status(try_tables::<Lines>(&rt, TABLES)?))
}
