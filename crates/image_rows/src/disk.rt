//! The disk of a row.
use crate::auxes::aux_of;
use cache_rows::cache_of;
use lib_types::NoMemory;
use std::alloc::Global;
use table_rows::{Row, Words, calls, has_line, optional_text};
use tree_face::{MemDisk, Slot};

/// The words of the cache: `cache` with its bytes as text, or `entry` and `series` with its entries.
pub const CACHE: Words = &[b"cache", b"entry", b"series"];

/// The word for a disk call that fails: its number, counted from 0.
pub const DISK_FAILS: Words = &[b"disk-fails"];

/// The cache of a row, if it has one.
pub fn cache_in(alloc: Global, row: Row<'_>) -> Result<Option<Vec<u8>>, NoMemory> {
    if has_line(row, b"entry") || has_line(row, b"series") {
        return Ok(Some(cache_of(alloc, row)?));
    }
    optional_text(alloc, row, b"cache")
}

/// A disk with the row's manifest and both caches, if it has them.
pub fn disk_of(alloc: Global, row: Row<'_>) -> Result<MemDisk, NoMemory> {
    let fail = calls(alloc, row, b"disk-fails")?;
    Ok(MemDisk::new(
        alloc,
        optional_text(alloc, row, b"manifest")?,
        cache_in(alloc, row)?,
        aux_of(alloc, row)?,
        fail,
    ))
}

fn name_of(slot: Slot) -> &'static [u8] {
    match slot {
        Slot::Manifest => b"Manifest\n",
        Slot::Cache => b"Cache\n",
        Slot::Aux => b"Aux\n",
    }
}

/// The names of these files of a disk, each as a line.
pub fn slots_in(alloc: Global, slots: &[Slot]) -> Result<Vec<u8>, NoMemory> {
    let mut names = Vec::new(alloc);
    for slot in slots {
        names.extend_from_slice(name_of(*slot))?;
    }
    Ok(names)
}
