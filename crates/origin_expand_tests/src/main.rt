//! Tests of the tokens in the loader's paths. The table is a file of data/.
#![tactic(auto)]

mod tokens;

use crate::tokens::Tokens;
use std::io;
use std::process::ExitCode;
use table_rows::{status, try_tables};

fn main(rt: HostRuntime) -> io::Result<ExitCode> {
    Ok(status(try_tables::<Tokens>(&rt, &["tokens"])?))
}
