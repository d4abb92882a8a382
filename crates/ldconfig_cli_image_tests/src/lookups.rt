//! Look-ups in the cache that an update has made.
use command_runs_fixture::Devices;
use ldconfig_cli_fixture::{Ending, ends_so};
use lib_types::NoMemory;
use std::alloc::Global;
use table_rows::{Differences, Row, divide};

// `PATH ARGUMENTS`, where the path is `-` if there is none.
fn is_answered(
    alloc: Global,
    line: &[u8],
    devices: &mut Devices,
    differences: &mut Differences,
) -> Result<bool, NoMemory> {
    let (path, arguments) = divide(b' ', line);
    if path == b"-".as_slice() {
        let want = Ending {
            status: 1,
            output: b"not found\n",
        };
        return ends_so(alloc, "lookup", arguments, want, devices, differences);
    }
    let mut output = Vec::from_slice(alloc, path)?;
    output.push(b'\n')?;
    let want = Ending {
        status: 0,
        output: &output,
    };
    ends_so(alloc, "lookup", arguments, want, devices, differences)
}

/// Whether each look-up of the row has its path.
pub(crate) fn are_answered(
    alloc: Global,
    row: Row<'_>,
    devices: &mut Devices,
    differences: &mut Differences,
) -> Result<bool, NoMemory> {
    let mut are_answered = true;
    for line in row {
        let (word, rest) = divide(b' ', *line);
        if word == b"lookup".as_slice() {
            are_answered = is_answered(alloc, rest, devices, differences)? && are_answered;
        }
    }
    Ok(are_answered)
}
