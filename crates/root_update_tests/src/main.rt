//! Tests of the update of a directory: what a check lists, which links are made, which directories are flushed, which cache is written,
//! and which tree is left. A second update changes nothing. An update by a manifest of the same tree writes the same. Each table is a file
//! of data/.
#![tactic(auto)]

mod by_manifest;
mod cache;
mod checking;
mod trial;
mod updating;

use crate::trial::Directory;
use std::io;
use std::process::ExitCode;
use table_rows::{status, try_tables};

const TABLES: &[&str] = &[
    "directories",
    "links",
    "names",
    "places",
    "options",
    "refusals",
    "records",
];

fn main(rt: HostRuntime) -> io::Result<ExitCode> {
    Ok(status(try_tables::<Directory>(&rt, TABLES)?))
}
