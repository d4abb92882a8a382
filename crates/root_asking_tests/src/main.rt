//! Tests of the command `resolve` for a directory: its status, its output, the files that it opens, and that it writes nothing to the
//! directory. The tables are files of data/.
#![tactic(auto)]

mod trial;

use crate::trial::Listed;
use std::io;
use std::process::ExitCode;
use table_rows::{status, try_tables};

fn main(rt: HostRuntime) -> io::Result<ExitCode> {
    Ok(status(try_tables::<Listed>(&rt, &["listings", "lists", "trees"])?))
}
