//! Tests of the command `resolve`: its status, its output, the files that it opens, and the files that it reads from the disk. In some
//! rows each call of each device fails in turn. Each table is a file of data/.
#![tactic(auto)]

mod setting;
mod trial;

use crate::trial::Listed;
use std::io;
use std::process::ExitCode;
use table_rows::{status, try_tables};

fn main(rt: HostRuntime) -> io::Result<ExitCode> {
    Ok(status(try_tables::<Listed>(&rt, &["listings", "refusals", "lists"])?))
}
