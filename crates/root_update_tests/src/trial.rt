//! One row: a directory, and its updates.
use crate::by_manifest::is_as_by_manifest;
use crate::checking::{Listing, is_listed};
use crate::updating::{is_first, is_second};
use elf_samples::SampleFault;
use image_rows::{AUX, FILES, MANIFEST, is_made};
use lib_types::NoMemory;
use root_update_fixture::{Devices, Failing, RUN, devices_of};
use std::alloc::Global;
use table_rows::{Differences, Row, Trial, Words, count, has_line, number, text, value};

/// A row describes a directory: its nodes, its files, the existing caches, the options of the run, and the calls that fail. It has the
/// exit status and the lines of a check. Of the update it has the exit status, the path that can't be read, the report and the number of
/// opened files. It has the writing calls in the directory. If the caches are compared, it has the printed text, the length and the bytes
/// of the cache, and the records of the auxiliary cache. After an update without an error follows a second update, which reports `again`,
/// or the same if the row has no such line. Then follows a check that lists nothing.
pub(crate) struct Directory;

const WORDS: &[Words] = &[
    MANIFEST,
    FILES,
    AUX,
    RUN,
    &[
        b"folder-fails",
        b"store-fails",
        b"disk-fails",
        b"check",
        b"changes",
        b"refused",
        b"fails-at",
        b"output",
        b"again",
        b"opened",
        b"made",
        b"print",
        b"size",
        b"new-cache",
        b"new-records",
        b"other-than-update",
    ],
];

fn call_of(row: Row<'_>, word: &[u8]) -> Option<u64> {
    match value(row, word) {
        Some(digits) => Some(number(digits)),
        None => None,
    }
}

// The row's directory.
fn devices_for(
    alloc: Global,
    row: Row<'_>,
    differences: &mut Differences,
) -> Result<Option<Devices>, SampleFault> {
    let failing = Failing {
        folder: call_of(row, b"folder-fails"),
        store: call_of(row, b"store-fails"),
        disk: call_of(row, b"disk-fails"),
    };
    devices_of(alloc, row, failing, differences)
}

// Whether a check lists what the row says.
fn is_checked(
    alloc: Global,
    row: Row<'_>,
    differences: &mut Differences,
) -> Result<bool, SampleFault> {
    let Some(mut devices) = devices_for(alloc, row, differences)? else {
        return Ok(false);
    };
    let lines = text(alloc, row, b"changes")?;
    let want = Listing {
        status: count(row, b"check"),
        lines: &lines,
    };
    Ok(is_listed(alloc, row, want, &mut devices, differences)?)
}

// Whether the update leaves what the row says, and a second update leaves the same.
fn is_updated(
    alloc: Global,
    row: Row<'_>,
    devices: &mut Devices,
    differences: &mut Differences,
) -> Result<bool, NoMemory> {
    if !is_first(alloc, row, devices, differences)? {
        return Ok(false);
    }
    Ok(has_line(row, b"refused") || is_second(alloc, row, devices, differences)?)
}

fn try_row(
    alloc: Global,
    row: Row<'_>,
    differences: &mut Differences,
) -> Result<bool, SampleFault> {
    let Some(mut devices) = devices_for(alloc, row, differences)? else {
        return Ok(false);
    };
    Ok(
        is_checked(alloc, row, differences)?
            && is_updated(alloc, row, &mut devices, differences)?
            && is_as_by_manifest(alloc, row, &mut devices, differences)?,
    )
}

impl Trial for Directory {
    fn words() -> &'static [Words] {
        WORDS
    }

    // An update that always returns NoMemory meets its contract, but not the rows.
    fn is_right(
        alloc: Global,
        row: Row<'_>,
        differences: &mut Differences,
    ) -> Result<bool, NoMemory> {
        let tried = try_row(alloc, row, differences);
        is_made(tried, differences)
    }
}
