//! One row: an image, and its update or its script.
use crate::left::{are_untouched, are_updated, content, has_manifest, has_records, has_replaced};
use command_runs_fixture::{Devices, image};
use elf_samples::SampleFault;
use image_rows::{AUX, FILES, MANIFEST, is_made};
use ldconfig_cli_fixture::{Ending, devices_of, ends_so};
use lib_types::NoMemory;
use std::alloc::Global;
use table_rows::{Differences, Row, Trial, Words, count, has_line, text, value};
use tree_face::Slot;

/// A row has a manifest, the store's files and an auxiliary cache, if there are any, and the script if `batch` is run instead of `update`.
/// It has the exit status if that isn't 0 (`refused`, or `status` of a script), the output, and the number of opened files. For a script
/// it has the replaced files in order, by their first letters. If files are replaced, it has the new manifest and the new records if there
/// are any, the printed text of the new cache, the results of look-ups in it, and its length or its bytes if they are compared. After an
/// update without an error follows a second update, which writes `again`, or the same if the row has no such line.
pub(crate) struct Image;

const WORDS: &[Words] = &[
    MANIFEST,
    FILES,
    AUX,
    &[
        b"script",
        b"refused",
        b"status",
        b"output",
        b"opened",
        b"replaced",
        b"new-manifest",
        b"new-records",
        b"new-cache",
        b"size",
        b"print",
        b"lookup",
        b"again",
    ],
];

// The file with this first letter.
fn slot_of(letter: u8) -> Option<Slot> {
    match letter {
        b'M' => Some(Slot::Manifest),
        b'C' => Some(Slot::Cache),
        b'A' => Some(Slot::Aux),
        _ => None,
    }
}

fn push_slots(slots: &mut Vec<Slot>, letters: &[u8]) -> Result<(), NoMemory> {
    for letter in letters {
        if let Some(slot) = slot_of(*letter) {
            slots.push(slot)?;
        }
    }
    Ok(())
}

// The letters of the replaced files. A rejected update replaces none. Any other update replaces the manifest only if there is a new one.
fn replaced<'a>(row: Row<'a>) -> &'a [u8] {
    if has_line(row, b"script") {
        value(row, b"replaced").unwrap_or(b"")
    } else if has_line(row, b"refused") {
        b""
    } else if has_line(row, b"new-manifest") {
        b"MCA"
    } else {
        b"CA"
    }
}

// The word for the exit status.
fn status_word(row: Row<'_>) -> &'static [u8] {
    if has_line(row, b"script") {
        b"status"
    } else {
        b"refused"
    }
}

// Whether the command of the row ends as the row says, and has replaced the row's files.
fn is_first(
    alloc: Global,
    row: Row<'_>,
    slots: &[Slot],
    devices: &mut Devices,
    differences: &mut Differences,
) -> Result<bool, NoMemory> {
    let command = if has_line(row, b"script") {
        "batch"
    } else {
        "update"
    };
    let output = text(alloc, row, b"output")?;
    let want = Ending {
        status: count(row, status_word(row)),
        output: &output,
    };
    Ok(
        ends_so(alloc, command, b"", want, devices, differences)?
            && differences.is_number(
                alloc,
                b"opened",
                count(row, b"opened"),
                devices.store.begun(),
            )?
            && has_replaced(alloc, devices, slots, differences)?
            && has_manifest(alloc, row, devices, differences)?,
    )
}

// The word for the output of a second update.
fn second_output(row: Row<'_>) -> &'static [u8] {
    if has_line(row, b"again") {
        b"again"
    } else {
        b"output"
    }
}

// Whether a second update leaves the same manifest, the same cache and the same records.
fn is_second(
    alloc: Global,
    row: Row<'_>,
    slots: &[Slot],
    devices: &mut Devices,
    differences: &mut Differences,
) -> Result<bool, NoMemory> {
    let cache = content(alloc, devices, Slot::Cache);
    let output = text(alloc, row, second_output(row))?;
    let want = Ending {
        status: 0,
        output: &output,
    };
    Ok(
        ends_so(alloc, "update", b"", want, devices, differences)?
            && has_replaced(alloc, devices, slots, differences)?
            && has_manifest(alloc, row, devices, differences)?
            && differences.is_same(b"cache", &cache, &content(alloc, devices, Slot::Cache))?
            && has_records(alloc, row, devices, differences)?,
    )
}

// Runs the command of the row, compares everything that it leaves, and updates the image again.
fn is_as_written(
    alloc: Global,
    row: Row<'_>,
    devices: &mut Devices,
    differences: &mut Differences,
) -> Result<bool, NoMemory> {
    let mut slots = Vec::new(alloc);
    push_slots(&mut slots, replaced(row))?;
    if !is_first(alloc, row, &slots, devices, differences)? {
        return Ok(false);
    }
    if slots.is_empty() {
        return are_untouched(alloc, row, devices, differences);
    }
    let are_updated = are_updated(alloc, row, devices, differences)?;
    if has_line(row, b"script") {
        return Ok(are_updated);
    }
    push_slots(&mut slots, b"CA")?;
    Ok(are_updated && is_second(alloc, row, &slots, devices, differences)?)
}

fn try_row(
    alloc: Global,
    row: Row<'_>,
    differences: &mut Differences,
) -> Result<bool, SampleFault> {
    let mut devices = devices_of(alloc, row, image(b""))?;
    Ok(is_as_written(alloc, row, &mut devices, differences)?)
}

impl Trial for Image {
    fn words() -> &'static [Words] {
        WORDS
    }

    // A `run` that always returns NoMemory meets its contract, but not the rows.
    fn is_right(
        alloc: Global,
        row: Row<'_>,
        differences: &mut Differences,
    ) -> Result<bool, NoMemory> {
        let tried = try_row(alloc, row, differences);
        is_made(tried, differences)
    }
}
