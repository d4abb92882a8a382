//! Tests of the order of search directories. The table is a file of data/.
#![tactic(auto)]

mod order;

use crate::order::Order;
use std::io;
use std::process::ExitCode;
use table_rows::{status, try_tables};

fn main(rt: HostRuntime) -> io::Result<ExitCode> {
    Ok(status(try_tables::<Order>(&rt, &["places"])?))
}
