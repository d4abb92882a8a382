//! Tests of the program's arguments: the command that they name, with its values. Each table is a file of data/.
#![tactic(auto)]

mod shown;
mod trial;

use crate::trial::Arguments;
use std::io;
use std::process::ExitCode;
use table_rows::{status, try_tables};

const TABLES: &[&str] = &["commands", "values", "refusals", "helps"];

fn main(rt: HostRuntime) -> io::Result<ExitCode> {
    Ok(status(try_tables::<Arguments>(&rt, TABLES)?))
}
