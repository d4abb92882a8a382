//! Tests of the listing of a program, and of its text. Each table is a file of data/.
#![tactic(auto)]

mod listings;

use crate::listings::Listings;
use std::io;
use std::process::ExitCode;
use table_rows::{status, try_tables};

fn main(rt: HostRuntime) -> io::Result<ExitCode> {
    let are_right = try_tables::<Listings>(&rt, &["listings", "objects", "refusals", "roots"])?;
    Ok(status(are_right))
}
