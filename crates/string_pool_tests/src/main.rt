//! Tests of string tables in which a string may be the end of another one. The table is a file of data/.
#![tactic(auto)]

mod filling;
mod plain;
mod pools;
mod random;

use crate::pools::Pools;
use std::io;
use std::process::ExitCode;
use table_rows::{status, try_tables};

fn main(rt: HostRuntime) -> io::Result<ExitCode> {
    Ok(status(try_tables::<Pools>(&rt, &["pools"])?))
}
