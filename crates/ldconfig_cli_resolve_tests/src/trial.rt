//! One row: a run of `resolve`.
use crate::setting::{Device, cache_of, disk_with, failing};
use command_runs_fixture::{Devices, has};
use elf_samples::SampleFault;
use image_rows::{CACHE, FILES, MANIFEST, is_made, slots_in};
use ldconfig_cli_fixture::{Ending, devices_of, ends_so, run_line};
use lib_types::NoMemory;
use std::alloc::Global;
use table_rows::{Differences, Row, Trial, Words, count, has_line, lines_in, text, value};
use tree_face::Slot;

/// A row has a manifest, if there is one, the store's files, the cache (with `updated` the one that an update makes), and the arguments of
/// `resolve`. It has the exit status, the output, the keys of the files that are opened, and the files that are read from the disk. With
/// `in-turn` each call of each device fails in turn.
pub(crate) struct Listed;

// Whether nothing was written to the disk.
fn is_unwritten(
    alloc: Global,
    devices: &mut Devices,
    cache: Option<&[u8]>,
    differences: &mut Differences,
) -> Result<bool, NoMemory> {
    let is_so = devices.disk.calls().is_empty()
        && has(alloc, &mut devices.disk, Slot::Cache, cache);
    if !is_so {
        differences.say(b"a file of the disk was written", b"")?;
    }
    Ok(is_so)
}

fn arguments<'a>(row: Row<'a>) -> &'a [u8] {
    value(row, b"resolve").unwrap_or(b"")
}

// Whether the command ends as the row says, if no device fails.
fn is_as_written(
    alloc: Global,
    row: Row<'_>,
    cache: Option<&[u8]>,
    differences: &mut Differences,
) -> Result<bool, SampleFault> {
    let mut devices = devices_of(alloc, row, disk_with(cache))?;
    let output = text(alloc, row, b"output")?;
    let want = Ending {
        status: count(row, b"status"),
        output: &output,
    };
    let ended = ends_so(
        alloc,
        "resolve",
        arguments(row),
        want,
        &mut devices,
        differences,
    )?;
    let keys = lines_in(alloc, devices.store.keys())?;
    let reads = slots_in(alloc, devices.disk.reads())?;
    Ok(
        ended
            && differences.is_text(alloc, row, b"keys", &keys)?
            && differences.is_text(alloc, row, b"reads", &reads)?
            && is_unwritten(alloc, &mut devices, cache, differences)?,
    )
}

// The status and the output of a command whose device has failed.
fn fault_of(device: Device) -> (u64, &'static [u8]) {
    match device {
        Device::Store => (10, b"fault: StoreFault\n"),
        Device::Disk => (11, b"fault: DiskFault\n"),
        Device::Sink => (13, b""),
    }
}

// The end of a run in which a call fails.
#[derive(Clone, Copy, PartialEq, Eq)]
enum End {
    /// With the fault of the device.
    Failed,
    /// As the row says, because the run makes fewer calls.
    AsWritten,
    Otherwise,
}

fn end_of(
    alloc: Global,
    row: Row<'_>,
    cache: Option<&[u8]>,
    device: Device,
    call: u64,
) -> Result<End, SampleFault> {
    let mut devices = devices_of(alloc, row, failing(cache, device, call))?;
    let got = u64::from(run_line(alloc, "resolve", arguments(row), &mut devices)?.code());
    let (status, line) = fault_of(device);
    let written = devices.out.written();
    if got == status && written == line {
        return Ok(End::Failed);
    }
    if got == count(row, b"status") && written == text(alloc, row, b"output")?.as_slice() {
        return Ok(End::AsWritten);
    }
    Ok(End::Otherwise)
}

// More calls than any run of a row makes.
const CALLS: u64 = 200;

// Whether a run ends with the device's fault, for each call of the device that fails.
fn fails_in_turn(
    alloc: Global,
    row: Row<'_>,
    cache: Option<&[u8]>,
    device: Device,
    differences: &mut Differences,
) -> Result<bool, SampleFault> {
    for call in 0..CALLS {
        match end_of(alloc, row, cache, device, call)? {
            End::Failed => {}
            End::AsWritten => return Ok(call > 0),
            End::Otherwise => break,
        }
    }
    differences.say(b"a device that fails", fault_of(device).1)?;
    Ok(false)
}

fn fail_in_turn(
    alloc: Global,
    row: Row<'_>,
    cache: Option<&[u8]>,
    differences: &mut Differences,
) -> Result<bool, SampleFault> {
    Ok(
        !has_line(row, b"in-turn")
            || (fails_in_turn(alloc, row, cache, Device::Store, differences)?
                && fails_in_turn(alloc, row, cache, Device::Disk, differences)?
                && fails_in_turn(alloc, row, cache, Device::Sink, differences)?),
    )
}

fn try_row(
    alloc: Global,
    row: Row<'_>,
    differences: &mut Differences,
) -> Result<bool, SampleFault> {
    let cache = cache_of(alloc, row)?;
    let cache = cache.as_deref();
    Ok(
        is_as_written(alloc, row, cache, differences)?
            && fail_in_turn(alloc, row, cache, differences)?,
    )
}

const WORDS: &[Words] = &[
    MANIFEST,
    FILES,
    CACHE,
    &[
        b"updated", b"resolve", b"status", b"output", b"keys", b"reads", b"in-turn",
    ],
];

impl Trial for Listed {
    fn words() -> &'static [Words] {
        WORDS
    }

    // A `run` that always returns NoMemory meets its contract, but not the rows.
    fn is_right(
        alloc: Global,
        row: Row<'_>,
        differences: &mut Differences,
    ) -> Result<bool, NoMemory> {
        let tried = try_row(alloc, row, differences);
        is_made(tried, differences)
    }
}
