//! The caches that an update leaves.
use cache_reader::{CacheView, print};
use lib_types::NoMemory;
use root_update::AuxUse;
use root_update_fixture::{Devices, TAG, aux_use, file_left, new_file};
use std::alloc::Global;
use table_rows::{Differences, Row, count, has_line, text};
use tree_face::{Call, DoneCall, MemSink, Slot, Tag};

// Whether the cache is printed as the row says. A malformed cache isn't printed.
fn is_printed(
    alloc: Global,
    row: Row<'_>,
    cache: &[u8],
    differences: &mut Differences,
) -> Result<bool, NoMemory> {
    let mut sink = MemSink::new(alloc, Vec::new(alloc));
    if let Ok(view) = CacheView::parse(cache) {
        let _ = print(&view, b"/etc/ld.so.cache", &mut sink);
    }
    differences.is_text(alloc, row, b"print", sink.written())
}

/// Whether the cache is the row's or, without `print`, the one that was there.
pub(crate) fn has_cache(
    alloc: Global,
    row: Row<'_>,
    devices: &mut Devices,
    differences: &mut Differences,
) -> Result<bool, NoMemory> {
    let cache = file_left(alloc, Slot::Cache, devices);
    if !has_line(row, b"print") {
        return differences.is_text(alloc, row, b"cache", &cache);
    }
    let size = count(row, b"size");
    Ok(
        is_printed(alloc, row, &cache, differences)?
            && (size == 0 || differences.is_number(alloc, b"size", size, cache.len() as u64)?)
            && (!has_line(row, b"new-cache")
                || differences.is_text(alloc, row, b"new-cache", &cache)?),
    )
}

/// Whether the auxiliary cache has the records of the row. If the row has none, it is as before.
pub(crate) fn has_records(
    alloc: Global,
    row: Row<'_>,
    devices: &mut Devices,
    differences: &mut Differences,
) -> Result<bool, NoMemory> {
    let want = new_file(alloc, row, Slot::Aux)?;
    let got = file_left(alloc, Slot::Aux, devices);
    differences.is_same(b"new-records", &want, &got)
}

const REPLACING: &[Call] = &[
    Call::Create,
    Call::Append,
    Call::Sync,
    Call::Publish,
    Call::Settle,
];

// The tag of a call in the list of calls: flushing a file's directory has none.
fn tag_of(call: Call) -> Tag {
    if call == Call::Settle { Tag(0) } else { TAG }
}

// Adds the calls that replace a file.
fn push_calls(calls: &mut Vec<DoneCall>, slot: Slot) -> Result<(), NoMemory> {
    for call in REPLACING {
        calls.push(DoneCall {
            tag: tag_of(*call),
            slot,
            call: *call,
        })?;
    }
    Ok(())
}

// Adds the disk's writing calls of an update.
fn push_update(calls: &mut Vec<DoneCall>, row: Row<'_>) -> Result<(), NoMemory> {
    if !has_line(row, b"no-cache") {
        push_calls(calls, Slot::Cache)?;
    }
    if aux_use(row) != AuxUse::Unused {
        push_calls(calls, Slot::Aux)?;
    }
    Ok(())
}

/// Whether the writing calls of the disk are those of `updates` updates, each of which replaces the cache and then the auxiliary cache.
pub(crate) fn has_calls(
    alloc: Global,
    row: Row<'_>,
    updates: u64,
    devices: &Devices,
    differences: &mut Differences,
) -> Result<bool, NoMemory> {
    let mut calls = Vec::new(alloc);
    for _ in 0..updates {
        push_update(&mut calls, row)?;
    }
    let is_so = devices.disk.calls() == calls.as_slice();
    if !is_so {
        differences.say(b"other writing calls of the disk", b"")?;
    }
    Ok(is_so)
}
