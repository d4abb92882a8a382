//! The devices of a row, and its cache.
use command_runs_fixture::{Setting, image};
use elf_samples::SampleFault;
use image_rows::cache_in;
use ldconfig_cli_fixture::{devices_of, run_line};
use std::alloc::Global;
use table_rows::{Row, has_line};
use tree_face::{Disk, Slot};

/// A device in which one call fails.
#[derive(Clone, Copy, PartialEq, Eq)]
pub(crate) enum Device {
    Store,
    Disk,
    Sink,
}

/// A disk with this cache, in which no device fails.
pub(crate) fn disk_with(cache: Option<&[u8]>) -> Setting<'_> {
    Setting {
        cache,
        ..image(b"")
    }
}

/// The same, with a device in which this call fails.
pub(crate) fn failing(cache: Option<&[u8]>, device: Device, call: u64) -> Setting<'_> {
    let sure = disk_with(cache);
    match device {
        Device::Store => Setting {
            store_fails: Some(call),
            ..sure
        },
        Device::Disk => Setting {
            disk_fails: Some(call),
            ..sure
        },
        Device::Sink => Setting {
            out_fails: Some(call),
            ..sure
        },
    }
}

// The cache that an update of the row's image makes.
fn updated(alloc: Global, row: Row<'_>) -> Result<Option<Vec<u8>>, SampleFault> {
    let mut devices = devices_of(alloc, row, disk_with(None))?;
    let _ = run_line(alloc, "update", b"", &mut devices)?;
    match devices.disk.read(alloc, Slot::Cache) {
        Ok(cache) => Ok(cache),
        Err(_) => Ok(None),
    }
}

/// The cache of a row: the one that an update makes, or that of the row's words.
pub(crate) fn cache_of(alloc: Global, row: Row<'_>) -> Result<Option<Vec<u8>>, SampleFault> {
    if has_line(row, b"updated") {
        return updated(alloc, row);
    }
    Ok(cache_in(alloc, row)?)
}
