//! Tests of look-ups in caches. Each table is a file of data/.
#![tactic(auto)]

mod lookups;

use crate::lookups::Lookups;
use std::io;
use std::process::ExitCode;
use table_rows::{status, try_tables};

fn main(rt: HostRuntime) -> io::Result<ExitCode> {
    let lookups = try_tables::<Lookups>(&rt, &["lookups", "orders", "steps", "abis"])?;
    Ok(status(lookups))
}
