//! What a check lists.
use lib_types::NoMemory;
use link_plan::Planned;
use root_update::{RootChanges, check_root, status_of};
use root_update_fixture::{Devices, parts_of, writing_calls};
use std::alloc::Global;
use table_rows::{Differences, Row};

/// The exit status of a check, and its lines.
#[derive(Clone, Copy)]
pub(crate) struct Listing<'a> {
    pub status: u64,
    pub lines: &'a [u8],
}

/// The check of a directory that is up to date.
pub(crate) const NOTHING: Listing<'static> = Listing {
    status: 0,
    lines: b"",
};

fn push_link(lines: &mut Vec<u8>, planned: &Planned) -> Result<(), NoMemory> {
    lines.extend_from_slice(b"link: ")?;
    lines.extend_from_slice(planned.path.as_bytes())?;
    lines.extend_from_slice(b" -> ")?;
    lines.extend_from_slice(planned.file.as_bytes())?;
    lines.push(b'\n')?;
    Ok(())
}

// A line for each link that would be made, and one for the cache.
fn lines_of(alloc: Global, changes: &RootChanges) -> Result<Vec<u8>, NoMemory> {
    let mut lines = Vec::new(alloc);
    for planned in changes.links.as_slice() {
        push_link(&mut lines, planned)?;
    }
    if changes.cache {
        lines.extend_from_slice(b"cache: etc/ld.so.cache\n")?;
    }
    Ok(lines)
}

// The exit status of a check that found these changes.
fn status_for(lines: &[u8]) -> u64 {
    if lines.is_empty() { 0 } else { 1 }
}

// Checks the directory: the exit status, and what would change.
fn check(alloc: Global, row: Row<'_>, devices: &mut Devices) -> Result<(u64, Vec<u8>), NoMemory> {
    let parts = parts_of(alloc, row)?;
    match check_root(
        alloc,
        &parts,
        &mut devices.folder,
        &mut devices.store,
        &mut devices.disk,
    ) {
        Ok(changes) => {
            let lines = lines_of(alloc, &changes)?;
            Ok((status_for(&lines), lines))
        }
        Err(fault) => Ok((u64::from(status_of(&fault).code()), Vec::new(alloc))),
    }
}

/// Whether a check has this result and writes nothing.
pub(crate) fn is_listed(
    alloc: Global,
    row: Row<'_>,
    want: Listing<'_>,
    devices: &mut Devices,
    differences: &mut Differences,
) -> Result<bool, NoMemory> {
    let before = writing_calls(alloc, &devices.folder)?;
    let written = devices.disk.calls().len() as u64;
    let (status, lines) = check(alloc, row, devices)?;
    let after = writing_calls(alloc, &devices.folder)?;
    let calls = devices.disk.calls().len() as u64;
    Ok(
        differences.is_number(alloc, b"check", want.status, status)?
            && differences.is_same(b"changes", want.lines, &lines)?
            && differences.is_same(b"writing calls of a check", &before, &after)?
            && differences.is_number(alloc, b"writing calls of a check", written, calls)?,
    )
}
