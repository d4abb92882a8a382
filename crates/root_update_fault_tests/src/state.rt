//! The possible states of a directory after some of an update's calls, and the next update, which repairs them.
use lib_types::NoMemory;
use root_update::AuxUse;
use root_update_fixture::{Devices, aux_use, file_left, has_tree, new_file, old_file, update};
use std::alloc::Global;
use table_rows::{Differences, Row, divide, has_line, number, text, value};
use tree_face::Slot;

/// The number of calls of an update: those that read the directory, those of the store, those that write to the directory, those that read
/// the disk, and those that write to it.
#[derive(Clone, Copy)]
pub(crate) struct Calls {
    pub reads: u64,
    pub store: u64,
    pub writes: u64,
    pub disk_reads: u64,
    pub disk_writes: u64,
}

/// The contents that a file may have.
#[derive(Clone, Copy)]
pub(crate) struct Contents {
    pub old: bool,
    pub new: bool,
}

pub(crate) const OLD: Contents = Contents {
    old: true,
    new: false,
};

const NEW: Contents = Contents {
    old: false,
    new: true,
};

/// The possible state after some writing calls in the directory.
#[derive(Clone, Copy)]
pub(crate) struct State {
    pub writes: u64,
    pub cache: Contents,
    pub aux: Contents,
}

/// The first lines of a text.
pub(crate) fn first_lines(alloc: Global, lines: &[u8], count: u64) -> Result<Vec<u8>, NoMemory> {
    let mut first = Vec::new(alloc);
    let mut rest = lines;
    for _ in 0..count {
        if rest.is_empty() {
            break;
        }
        let (line, after) = divide(b'\n', rest);
        first.extend_from_slice(line)?;
        first.push(b'\n')?;
        rest = after;
    }
    Ok(first)
}

fn count_lines(lines: &[u8]) -> u64 {
    let mut count = 0u64;
    for byte in lines {
        if *byte == b'\n' {
            count = count.saturating_add(1);
        }
    }
    count
}

// The number of writing calls of the disk: five replace a file. Without a cache, a row's run has no auxiliary cache either.
fn disk_writes_of(row: Row<'_>) -> u64 {
    if has_line(row, b"no-cache") {
        0
    } else if aux_use(row) == AuxUse::Unused {
        5
    } else {
        10
    }
}

/// The calls of the row's update: `in-turn READS STORE`.
pub(crate) fn calls_of(alloc: Global, row: Row<'_>) -> Result<Calls, NoMemory> {
    let (reads, store) = divide(b' ', value(row, b"in-turn").unwrap_or(b""));
    let made = text(alloc, row, b"made")?;
    Ok(Calls {
        reads: number(reads),
        store: number(store),
        writes: count_lines(&made),
        disk_reads: if aux_use(row) == AuxUse::Updated {
            1
        } else {
            0
        },
        disk_writes: disk_writes_of(row),
    })
}

/// Prints the number of the call.
pub(crate) fn say_number(
    alloc: Global,
    what: &[u8],
    number: u64,
    differences: &mut Differences,
) -> Result<(), NoMemory> {
    let digits = format!(in alloc; "{number}")?;
    differences.say(what, digits.as_bytes())
}

/// The possible contents of a file, if the writing call `renaming` renames it, and `call` is the last call, which may have failed.
pub(crate) fn contents_at(call: u64, renaming: u64) -> Contents {
    Contents {
        old: call <= renaming,
        new: call >= renaming,
    }
}

// Whether a file has one of the contents that it may have.
fn has_one(
    alloc: Global,
    row: Row<'_>,
    slot: Slot,
    want: Contents,
    devices: &mut Devices,
) -> Result<bool, NoMemory> {
    let got = file_left(alloc, slot, devices);
    let old = old_file(alloc, row, slot)?;
    let new = new_file(alloc, row, slot)?;
    let is_old = got.as_slice() == old.as_slice();
    let is_new = got.as_slice() == new.as_slice();
    Ok((want.old && is_old) || (want.new && is_new))
}

/// Whether the directory is in this state, if its tree and its files can be read.
pub(crate) fn is_in(
    alloc: Global,
    row: Row<'_>,
    want: State,
    devices: &mut Devices,
    differences: &mut Differences,
) -> Result<bool, NoMemory> {
    let made = text(alloc, row, b"made")?;
    let made = first_lines(alloc, &made, want.writes)?;
    if !has_tree(alloc, row, &made, devices, differences)? {
        return Ok(false);
    }
    let is_in = has_one(alloc, row, Slot::Cache, want.cache, devices)?
        && has_one(alloc, row, Slot::Aux, want.aux, devices)?;
    if !is_in {
        differences.say(b"another cache is left", b"")?;
    }
    Ok(is_in)
}

// The state that an undisturbed update leaves.
const DONE: State = State {
    writes: u64::MAX,
    cache: NEW,
    aux: NEW,
};

/// Whether the next update succeeds, and leaves the links and the caches of an undisturbed one.
pub(crate) fn is_repaired(
    alloc: Global,
    row: Row<'_>,
    devices: &mut Devices,
    differences: &mut Differences,
) -> Result<bool, NoMemory> {
    match update(alloc, row, devices) {
        Ok(_updated) => is_in(alloc, row, DONE, devices, differences),
        Err(_) => {
            differences.say(b"the next update fails", b"")?;
            Ok(false)
        }
    }
}
