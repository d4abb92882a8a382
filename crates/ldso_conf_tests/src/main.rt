//! Tests of conf files. The table is a file of data/.
#![tactic(auto)]

mod many;
mod readings;

use crate::many::try_many;
use crate::readings::Readings;
use std::io;
use std::process::ExitCode;
use table_rows::{status, try_tables};

fn main(rt: HostRuntime) -> io::Result<ExitCode> {
    let readings = try_tables::<Readings>(&rt, &["readings"])?;
    let many = try_many(rt.alloc());
    println!(rt; "many lines and files: {many}")?;
    Ok(status(readings && many))
}
