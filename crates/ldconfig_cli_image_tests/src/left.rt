//! The files that a command leaves on the disk of a row.
use crate::lookups::are_answered;
use command_runs_fixture::{Devices, NO_STAMPS, OLD, has, replacing_calls};
use image_rows::{aux_of, records_in};
use ldconfig_cli_fixture::{Ending, ends_so};
use lib_types::NoMemory;
use std::alloc::Global;
use table_rows::{Differences, Row, count, has_line, text};
use tree_face::{Disk, Slot};

/// The content of a file. It is empty if the file can't be read.
pub(crate) fn content(alloc: Global, devices: &mut Devices, slot: Slot) -> Vec<u8> {
    match devices.disk.read(alloc, slot) {
        Ok(Some(found)) => found,
        _ => Vec::new(alloc),
    }
}

/// Whether these files were replaced in this order, and nothing else was written.
pub(crate) fn has_replaced(
    alloc: Global,
    devices: &Devices,
    slots: &[Slot],
    differences: &mut Differences,
) -> Result<bool, NoMemory> {
    let calls = replacing_calls(alloc, slots)?;
    let is_so = devices.disk.calls() == calls.as_slice();
    if !is_so {
        differences.say(b"other writing calls", b"")?;
    }
    Ok(is_so)
}

/// Whether the manifest is the expected one: the row's new one, or else the old one.
pub(crate) fn has_manifest(
    alloc: Global,
    row: Row<'_>,
    devices: &mut Devices,
    differences: &mut Differences,
) -> Result<bool, NoMemory> {
    let manifest = content(alloc, devices, Slot::Manifest);
    if has_line(row, b"new-manifest") {
        differences.is_text(alloc, row, b"new-manifest", &manifest)
    } else {
        differences.is_text(alloc, row, b"manifest", &manifest)
    }
}

/// Whether the auxiliary cache has the new records of the row. Without the line it must have none.
pub(crate) fn has_records(
    alloc: Global,
    row: Row<'_>,
    devices: &mut Devices,
    differences: &mut Differences,
) -> Result<bool, NoMemory> {
    let got = content(alloc, devices, Slot::Aux);
    match records_in(alloc, row, b"new-records")? {
        Some(want) => differences.is_same(b"new-records", &want, &got),
        None => differences.is_same(b"new-records", NO_STAMPS, &got),
    }
}

/// Whether both caches are the old ones.
pub(crate) fn are_untouched(
    alloc: Global,
    row: Row<'_>,
    devices: &mut Devices,
    differences: &mut Differences,
) -> Result<bool, NoMemory> {
    let cache = content(alloc, devices, Slot::Cache);
    let aux = aux_of(alloc, row)?;
    Ok(
        differences.is_same(b"cache", OLD, &cache)?
            && has(alloc, &mut devices.disk, Slot::Aux, aux.as_deref()),
    )
}

// Whether the cache has the length and the bytes of the row, if the row has these.
fn has_bytes(
    alloc: Global,
    row: Row<'_>,
    cache: &[u8],
    differences: &mut Differences,
) -> Result<bool, NoMemory> {
    let size = count(row, b"size");
    Ok(
        (size == 0 || differences.is_number(alloc, b"size", size, cache.len() as u64)?)
            && (!has_line(row, b"new-cache")
                || differences.is_text(alloc, row, b"new-cache", cache)?),
    )
}

fn is_printed(
    alloc: Global,
    row: Row<'_>,
    devices: &mut Devices,
    differences: &mut Differences,
) -> Result<bool, NoMemory> {
    let print = text(alloc, row, b"print")?;
    let want = Ending {
        status: 0,
        output: &print,
    };
    ends_so(alloc, "print", b"", want, devices, differences)
}

/// Whether both caches are those of an update: the records, the bytes, the printed cache, and the results of look-ups.
pub(crate) fn are_updated(
    alloc: Global,
    row: Row<'_>,
    devices: &mut Devices,
    differences: &mut Differences,
) -> Result<bool, NoMemory> {
    let cache = content(alloc, devices, Slot::Cache);
    Ok(
        has_records(alloc, row, devices, differences)?
            && has_bytes(alloc, row, &cache, differences)?
            && is_printed(alloc, row, devices, differences)?
            && are_answered(alloc, row, devices, differences)?,
    )
}
