//! Tests of the arguments of root commands: the command, or why the arguments are rejected. The table is a file of data/.
#![tactic(auto)]

mod shown;
mod trial;

use crate::trial::Arguments;
use std::io;
use std::process::ExitCode;
use table_rows::{status, try_tables};

const TABLES: &[&str] = &["arguments"];

fn main(rt: HostRuntime) -> io::Result<ExitCode> {
    Ok(status(try_tables::<Arguments>(&rt, TABLES)?))
}
