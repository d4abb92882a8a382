//! What an update leaves in a directory.
use crate::devices::{Devices, TAG};
use crate::tree::text_with;
use image_rows::{aux_of, records_in};
use lib_types::NoMemory;
use mtree_manifest::write;
use root_folder::{FolderCall, MemFolder};
use root_tree::read_tree;
use std::alloc::Global;
use table_rows::{Differences, Row, has_line, text};
use tree_face::{Disk, Slot};

// Adds a line of a word and a text.
fn push_line(lines: &mut Vec<u8>, word: &[u8], text: &[u8]) -> Result<(), NoMemory> {
    lines.extend_from_slice(word)?;
    lines.extend_from_slice(text)?;
    lines.push(b'\n')?;
    Ok(())
}

fn push_link(lines: &mut Vec<u8>, path: &[u8], target: &[u8]) -> Result<(), NoMemory> {
    lines.extend_from_slice(b"link ")?;
    lines.extend_from_slice(path)?;
    push_line(lines, b" ", target)
}

// Adds a call, unless it reads.
fn push_call(lines: &mut Vec<u8>, call: &FolderCall) -> Result<(), NoMemory> {
    match call {
        FolderCall::Link { tag, path, target } => {
            if *tag != TAG {
                push_line(lines, b"another tag", b"")?;
            }
            push_link(lines, path.as_bytes(), target.as_bytes())
        }
        FolderCall::Settle { dir } => push_line(lines, b"settle ", dir.as_bytes()),
        _ => Ok(()),
    }
}

/// The writing calls of a directory in order, a line each: `link PATH TARGET` and `settle DIR`.
pub fn writing_calls(alloc: Global, folder: &MemFolder) -> Result<Vec<u8>, NoMemory> {
    let mut lines = Vec::new(alloc);
    for call in folder.calls() {
        push_call(&mut lines, call)?;
    }
    Ok(lines)
}

/// The canonical text of the tree of a directory, empty if it can't be read.
pub fn tree_left(alloc: Global, devices: &mut Devices) -> Result<Vec<u8>, NoMemory> {
    match read_tree(alloc, &mut devices.folder) {
        Ok(tree) => write(alloc, &tree),
        Err(_) => Ok(Vec::new(alloc)),
    }
}

/// Whether the directory has the links of these calls, and is unchanged otherwise.
pub fn has_tree(
    alloc: Global,
    row: Row<'_>,
    calls: &[u8],
    devices: &mut Devices,
    differences: &mut Differences,
) -> Result<bool, NoMemory> {
    let want = text_with(alloc, row, calls, differences)?;
    let got = tree_left(alloc, devices)?;
    differences.is_same(b"the tree", &want, &got)
}

/// A cache of a directory, empty if there is none or it can't be read.
pub fn file_left(alloc: Global, slot: Slot, devices: &mut Devices) -> Vec<u8> {
    match devices.disk.read(alloc, slot) {
        Ok(Some(file)) => file,
        _ => Vec::new(alloc),
    }
}

/// The row's cache before the update, empty if there is none.
pub fn old_file(alloc: Global, row: Row<'_>, slot: Slot) -> Result<Vec<u8>, NoMemory> {
    if slot == Slot::Cache {
        return text(alloc, row, b"cache");
    }
    Ok(aux_of(alloc, row)?.unwrap_or(Vec::new(alloc)))
}

/// The row's cache after the update. If the row has none, it is the cache before the update.
pub fn new_file(alloc: Global, row: Row<'_>, slot: Slot) -> Result<Vec<u8>, NoMemory> {
    if slot == Slot::Cache && has_line(row, b"new-cache") {
        return text(alloc, row, b"new-cache");
    }
    if slot == Slot::Aux && has_line(row, b"new-records") {
        return Ok(records_in(alloc, row, b"new-records")?.unwrap_or(Vec::new(alloc)));
    }
    old_file(alloc, row, slot)
}
