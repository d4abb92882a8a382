//! Tests of loading an image and of editing it. The tables are files of data/.
#![tactic(auto)]

mod edits;
mod loads;
mod shown;

use crate::edits::Edits;
use crate::loads::Loads;
use std::io;
use std::process::ExitCode;
use table_rows::{status, try_tables};

fn main(rt: HostRuntime) -> io::Result<ExitCode> {
    let loads = try_tables::<Loads>(&rt, &["loads"])?;
    let edits = try_tables::<Edits>(&rt, &["edits"])?;
    Ok(status(loads && edits))
}
