//! Tests of auxiliary caches. Each table is a file of data/.
#![tactic(auto)]

mod bytes;
mod files;
mod lines;
mod series;

use crate::files::Files;
use crate::series::Series;
use std::io;
use std::process::ExitCode;
use table_rows::{status, try_tables};

fn main(rt: HostRuntime) -> io::Result<ExitCode> {
    let files = try_tables::<Files>(&rt, &["files", "damage"])?;
    let series = try_tables::<Series>(&rt, &["series"])?;
    Ok(status(files && series))
}
