//! Tests of the paths where the loader looks for a library, and of the library that it takes. Each table is a file of data/.
#![tactic(auto)]

mod finds;
mod places;

use crate::finds::Finds;
use crate::places::Places;
use std::io;
use std::process::ExitCode;
use table_rows::{status, try_tables};

fn main(rt: HostRuntime) -> io::Result<ExitCode> {
    let places = try_tables::<Places>(&rt, &["places", "roots"])?;
    let finds = try_tables::<Finds>(&rt, &["finds"])?;
    Ok(status(places && finds))
}
