//! Each call of each I/O interface fails in turn, and the next update repairs what is left.
use crate::state::{
    Calls, OLD, State, calls_of, contents_at, first_lines, is_in, is_repaired, say_number,
};
use elf_samples::SampleFault;
use lib_types::NoMemory;
use root_update::status_of;
use root_update_fixture::{Devices, Failing, devices_of, update, writing_calls};
use std::alloc::Global;
use table_rows::{Differences, Row, text};

// An I/O interface.
#[derive(Clone, Copy, PartialEq, Eq)]
enum Interface {
    Folder,
    Store,
    Disk,
}

// The call if `is_so`, else None.
fn call_if(is_so: bool, call: u64) -> Option<u64> {
    if is_so { Some(call) } else { None }
}

fn failing(interface: Interface, call: u64) -> Failing {
    Failing {
        folder: call_if(interface == Interface::Folder, call),
        store: call_if(interface == Interface::Store, call),
        disk: call_if(interface == Interface::Disk, call),
    }
}

// The number of calls of an interface in an update.
fn count_of(interface: Interface, calls: Calls) -> u64 {
    match interface {
        Interface::Folder => calls.reads.saturating_add(calls.writes),
        Interface::Store => calls.store,
        Interface::Disk => calls.disk_reads.saturating_add(calls.disk_writes),
    }
}

// The exit status after this call has failed: 10 if it reads the directory or the store, and otherwise 11.
fn status_by(interface: Interface, calls: Calls, call: u64) -> u64 {
    let reads = match interface {
        Interface::Folder => calls.reads,
        Interface::Store => calls.store,
        Interface::Disk => 0,
    };
    if call < reads { 10 } else { 11 }
}

// The state after this number of writing calls in the directory, with the old files.
fn with_old_files(writes: u64) -> State {
    State {
        writes,
        cache: OLD,
        aux: OLD,
    }
}

// The state after this call of the disk has failed. Five calls replace a file. The fourth renames it, so it may have been renamed.
fn state_by_disk(calls: Calls, call: u64) -> State {
    if call < calls.disk_reads {
        return with_old_files(0);
    }
    let writing = call.saturating_sub(calls.disk_reads);
    State {
        writes: calls.writes,
        cache: contents_at(writing, 3),
        aux: contents_at(writing, 8),
    }
}

// The state after this call has failed.
fn state_by(interface: Interface, calls: Calls, call: u64) -> State {
    match interface {
        Interface::Folder => with_old_files(call.saturating_sub(calls.reads)),
        Interface::Store => with_old_files(0),
        Interface::Disk => state_by_disk(calls, call),
    }
}

// Whether the update ends with this status, and has made this number of writing calls in the directory.
fn ends_after(
    alloc: Global,
    row: Row<'_>,
    status: u64,
    writes: u64,
    devices: &mut Devices,
    differences: &mut Differences,
) -> Result<bool, NoMemory> {
    let got = match update(alloc, row, devices) {
        Ok(_updated) => 0,
        Err(fault) => u64::from(status_of(&fault).code()),
    };
    let calls = writing_calls(alloc, &devices.folder)?;
    let made = text(alloc, row, b"made")?;
    let made = first_lines(alloc, &made, writes)?;
    Ok(
        differences.is_number(alloc, b"status", status, got)?
            && differences.is_same(b"writing calls", &made, &calls)?,
    )
}

// Whether an update in which this call fails leaves a possible state, and the next update repairs it.
fn is_turn_repaired(
    alloc: Global,
    row: Row<'_>,
    interface: Interface,
    call: u64,
    differences: &mut Differences,
) -> Result<bool, SampleFault> {
    let calls = calls_of(alloc, row)?;
    let Some(mut devices) = devices_of(alloc, row, failing(interface, call), differences)? else {
        return Ok(false);
    };
    let status = status_by(interface, calls, call);
    let state = state_by(interface, calls, call);
    Ok(
        ends_after(alloc, row, status, state.writes, &mut devices, differences)?
            && is_in(alloc, row, state, &mut devices, differences)?
            && is_repaired(alloc, row, &mut devices, differences)?,
    )
}

// Whether an update makes at most `call` calls of this interface.
fn is_last(
    alloc: Global,
    row: Row<'_>,
    interface: Interface,
    call: u64,
    differences: &mut Differences,
) -> Result<bool, SampleFault> {
    let Some(mut devices) = devices_of(alloc, row, failing(interface, call), differences)? else {
        return Ok(false);
    };
    Ok(ends_after(alloc, row, 0, u64::MAX, &mut devices, differences)?)
}

fn name_of(interface: Interface) -> &'static [u8] {
    match interface {
        Interface::Folder => b"call of the directory: ",
        Interface::Store => b"call of the store: ",
        Interface::Disk => b"call of the disk: ",
    }
}

// The same for each call of an interface.
fn are_repaired(
    alloc: Global,
    row: Row<'_>,
    interface: Interface,
    differences: &mut Differences,
) -> Result<bool, SampleFault> {
    let count = count_of(interface, calls_of(alloc, row)?);
    for call in 0..count {
        if !is_turn_repaired(alloc, row, interface, call, differences)? {
            say_number(alloc, name_of(interface), call, differences)?;
            return Ok(false);
        }
    }
    is_last(alloc, row, interface, count, differences)
}

/// Whether the next update repairs what each failing call leaves.
pub(crate) fn are_turns_repaired(
    alloc: Global,
    row: Row<'_>,
    differences: &mut Differences,
) -> Result<bool, SampleFault> {
    Ok(
        are_repaired(alloc, row, Interface::Folder, differences)?
            && are_repaired(alloc, row, Interface::Store, differences)?
            && are_repaired(alloc, row, Interface::Disk, differences)?,
    )
}
