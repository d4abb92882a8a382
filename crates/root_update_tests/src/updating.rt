//! An update, the state that it leaves, and a second update.
use crate::cache::{has_cache, has_calls, has_records};
use crate::checking::{NOTHING, is_listed};
use lib_types::NoMemory;
use link_plan::{Plan, Planned};
use root_tree::TreeRead;
use root_update::{RootFault, Updated, status_of};
use root_update_fixture::{Devices, file_left, has_tree, links_in, update, writing_calls};
use std::alloc::Global;
use table_rows::{Differences, Row, count, has_line, lines_in, text, value};
use tree_face::Slot;

// The path that couldn't be read.
fn failed_at(fault: &RootFault) -> &[u8] {
    match fault {
        RootFault::Tree(TreeRead::Failed { at }) => at.as_bytes(),
        _ => b"",
    }
}

fn is_refused(
    alloc: Global,
    row: Row<'_>,
    fault: &RootFault,
    differences: &mut Differences,
) -> Result<bool, NoMemory> {
    let status = u64::from(status_of(fault).code());
    let at = value(row, b"fails-at").unwrap_or(b"");
    Ok(
        differences.is_number(alloc, b"refused", count(row, b"refused"), status)?
            && differences.is_same(b"fails-at", at, failed_at(fault))?,
    )
}

// The word of the line with the report of a second update.
fn second_output(row: Row<'_>) -> &'static [u8] {
    if has_line(row, b"again") {
        b"again"
    } else {
        b"output"
    }
}

fn push_pair(lines: &mut Vec<u8>, planned: &Planned) -> Result<(), NoMemory> {
    lines.extend_from_slice(planned.path.as_bytes())?;
    lines.push(b' ')?;
    lines.extend_from_slice(planned.file.as_bytes())?;
    lines.push(b'\n')?;
    Ok(())
}

// Whether an update says that it made the links of `made`. A second update says that it made none.
fn has_links(
    alloc: Global,
    row: Row<'_>,
    is_first: bool,
    links: &Plan,
    differences: &mut Differences,
) -> Result<bool, NoMemory> {
    let mut got = Vec::new(alloc);
    for planned in links.as_slice() {
        push_pair(&mut got, planned)?;
    }
    let made = links_in(alloc, &text(alloc, row, b"made")?)?;
    let want = lines_in(alloc, &made)?;
    if is_first {
        differences.is_same(b"the links", &want, &got)
    } else {
        differences.is_same(b"the links", b"", &got)
    }
}

fn is_done(
    alloc: Global,
    row: Row<'_>,
    is_first: bool,
    updated: &Updated,
    differences: &mut Differences,
) -> Result<bool, NoMemory> {
    let word = if is_first {
        b"output".as_slice()
    } else {
        second_output(row)
    };
    let report = &updated.report;
    Ok(
        differences.is_number(alloc, b"refused", count(row, b"refused"), 0)?
            && differences.is_text(alloc, row, word, report.text.as_bytes())?
            && (!is_first
                || differences.is_number(alloc, b"opened", count(row, b"opened"), report.opened)?)
            && has_links(alloc, row, is_first, &updated.links, differences)?,
    )
}

// Updates the directory, for the first time or the second. Returns whether it ends as the row says.
fn ends_so(
    alloc: Global,
    row: Row<'_>,
    is_first: bool,
    devices: &mut Devices,
    differences: &mut Differences,
) -> Result<bool, NoMemory> {
    match update(alloc, row, devices) {
        Ok(updated) => is_done(alloc, row, is_first, &updated, differences),
        Err(fault) => is_refused(alloc, row, &fault, differences),
    }
}

/// Whether the first update ends and leaves what the row says.
pub(crate) fn is_first(
    alloc: Global,
    row: Row<'_>,
    devices: &mut Devices,
    differences: &mut Differences,
) -> Result<bool, NoMemory> {
    if !ends_so(alloc, row, true, devices, differences)? {
        return Ok(false);
    }
    let calls = writing_calls(alloc, &devices.folder)?;
    Ok(
        differences.is_text(alloc, row, b"made", &calls)?
            && has_tree(alloc, row, &calls, devices, differences)?
            && has_cache(alloc, row, devices, differences)?
            && has_records(alloc, row, devices, differences)?,
    )
}

/// Whether a second update makes no link and writes the same caches, and a check then lists nothing.
pub(crate) fn is_second(
    alloc: Global,
    row: Row<'_>,
    devices: &mut Devices,
    differences: &mut Differences,
) -> Result<bool, NoMemory> {
    let cache = file_left(alloc, Slot::Cache, devices);
    let first = has_calls(alloc, row, 1, devices, differences)?;
    let ended = ends_so(alloc, row, false, devices, differences)?;
    let calls = writing_calls(alloc, &devices.folder)?;
    Ok(
        first
            && ended
            && differences.is_text(alloc, row, b"made", &calls)?
            && has_calls(alloc, row, 2, devices, differences)?
            && differences.is_same(
                b"the second cache",
                &cache,
                &file_left(alloc, Slot::Cache, devices),
            )?
            && has_records(alloc, row, devices, differences)?
            && is_listed(alloc, row, NOTHING, devices, differences)?,
    )
}
