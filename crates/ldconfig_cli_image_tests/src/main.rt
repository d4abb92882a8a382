//! Tests of the commands `update` and `batch` over images with links, conf files, subdirectories for processors, malformed libraries, and
//! rejected inputs. They compare the output, the manifest, the records, the cache and its printed text, and check that a second update
//! plans nothing more. Each table is a file of data/.
#![tactic(auto)]

mod left;
mod lookups;
mod trial;

use crate::trial::Image;
use std::io;
use std::process::ExitCode;
use table_rows::{status, try_tables};

const TABLES: &[&str] = &[
    "images", "damages", "refusals", "plans", "surveys", "winners", "entries", "folders",
    "reports", "limits", "stamps", "auxes", "scripts", "lines",
];

fn main(rt: HostRuntime) -> io::Result<ExitCode> {
    Ok(status(try_tables::<Image>(&rt, TABLES)?))
}
