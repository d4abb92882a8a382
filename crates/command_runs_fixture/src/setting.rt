//! Devices in memory for one run of a command, and their expected contents after it.
ghost use Rattle.std.specs.Prelude.{◌≡◌, ◌∷◌, [], Some, None, IfOk, IfSome, IsSomeAnd, option_map, option_copied};

use crate::narrow_sink::NarrowSink;
use crate::samples::NO_STAMPS;
use command_runs::{Status, run_command};
use command_words::Command;
use lib_types::{NoMemory, Text};
use std::alloc::Global;
use tree_face::{Call, Disk, DoneCall, MemDisk, MemSink, MemSource, MemStore, Slot, Tag};

/// The content of the cache file before a run.
pub const OLD: &[u8] = b"old";

pub const LIBZ_MANIFEST: &[u8] = b"#mtree\n./usr/lib/libz.so.1 type=file\n";

pub const LIBZ_KEY: &[u8] = b"usr/lib/libz.so.1";

pub const LIBZ_REPORT: &[u8] = b"1 libs, 0 links, 1 files opened\n";

/// The contents of a store: keys and contents.
pub type Pairs = Vec<(Text, Text)>;

/// The files of a disk, and for each device the number of the call that fails.
#[derive(Clone, Copy)]
pub struct Setting<'a> {
    pub manifest: Option<&'a [u8]>,
    pub cache: Option<&'a [u8]>,
    pub aux: Option<&'a [u8]>,
    pub store_fails: Option<u64>,
    pub disk_fails: Option<u64>,
    pub out_fails: Option<u64>,
}

/// The expected results of a run.
#[derive(Clone, Copy)]
pub struct Wanted<'a> {
    pub status: Status,
    pub written: &'a [u8],
    /// The new manifest, if one is written.
    pub manifest: Option<&'a [u8]>,
    pub cache: &'a [u8],
    /// The new auxiliary cache, if one is written.
    pub aux: Option<&'a [u8]>,
}

#[derive(Drop)]
pub struct Devices {
    pub store: MemStore,
    pub disk: MemDisk,
    pub input: MemSource,
    pub out: MemSink,
}

/// A disk with this manifest, an old cache and no auxiliary cache. No device fails.
pub fn image(manifest: &[u8]) -> Setting<'_> {
    Setting {
        manifest: Some(manifest),
        cache: Some(OLD),
        aux: None,
        store_fails: None,
        disk_fails: None,
        out_fails: None,
    }
}

/// The results of a successful run, if no links are planned and no file has an identity.
pub fn done<'a>(written: &'a [u8], cache: &'a [u8]) -> Wanted<'a>
    ensures status { result.status ≡ Status.Done }
    ensures written { result.written.now ≡ written.entry.now }
    ensures manifest { result.manifest ≡ None }
    ensures cache { result.cache.now ≡ cache.entry.now }
    ensures aux { IsSomeAnd result.aux (λ aux. aux.now ≡ NO_STAMPS.now) }
{
    Wanted {
        status: Status::Done,
        written,
        manifest: None,
        cache,
        aux: Some(NO_STAMPS),
    }
}

/// The results of a rejected run: the old files.
pub fn refused(status: Status, written: &[u8]) -> Wanted<'_>
    ensures status { result.status ≡ status }
    ensures written { result.written.now ≡ written.entry.now }
    ensures manifest { result.manifest ≡ None }
    ensures cache { result.cache.now ≡ OLD.now }
    ensures aux { result.aux ≡ None }
{
    Wanted {
        status,
        written,
        manifest: None,
        cache: OLD,
        aux: None,
    }
}

/// The contents of a store that has only this.
pub fn one(alloc: Global, key: &[u8], content: &[u8]) -> Result<Pairs, NoMemory>
    ensures { IfOk result (λ held. held.items ≡ (key.now, content.now) ∷ []) }
{
    let mut held = Vec::new(alloc);
    held.push((Text::copy_of(alloc, key)?, Text::copy_of(alloc, content)?))?;
    Ok(held)
}

/// A list of this call, or an empty list.
pub fn number(alloc: Global, call: Option<u64>) -> Result<Vec<u64>, NoMemory> {
    let mut calls = Vec::new(alloc);
    if let Some(call) = call {
        calls.push(call)?;
    }
    Ok(calls)
}

/// A copy of these bytes, if there are some.
pub fn copy(alloc: Global, bytes: Option<&[u8]>) -> Result<Option<Vec<u8>>, NoMemory> {
    match bytes {
        Some(bytes) => Ok(Some(Vec::from_slice(alloc, bytes)?)),
        None => Ok(None),
    }
}

/// Devices in memory with this setting.
pub fn make_devices(alloc: Global, setting: Setting<'_>, held: Pairs) -> Result<Devices, NoMemory> {
    Ok(Devices {
        store: MemStore::new(alloc, held, number(alloc, setting.store_fails)?),
        disk: MemDisk::new(
            alloc,
            copy(alloc, setting.manifest)?,
            copy(alloc, setting.cache)?,
            copy(alloc, setting.aux)?,
            number(alloc, setting.disk_fails)?,
        ),
        input: MemSource::new(Vec::new(alloc), Vec::new(alloc)),
        out: MemSink::new(alloc, number(alloc, setting.out_fails)?),
    })
}

fn run(alloc: Global, command: Command, devices: &mut Devices) -> Status {
    run_command(
        alloc,
        command,
        tree_face::Devices {
            store: &mut devices.store,
            disk: &mut devices.disk,
            source: &mut devices.input,
            sink: &mut devices.out,
        },
    )
}

/// Updates the image, with the tag 0 for temporary files.
pub fn run_update(alloc: Global, devices: &mut Devices) -> Status {
    run(alloc, Command::Update { tag: Tag(0) }, devices)
}

/// Runs the script that is the input, with the tag 0 for temporary files.
pub fn run_script(alloc: Global, devices: &mut Devices) -> Status {
    run(alloc, Command::Batch { tag: Tag(0) }, devices)
}

/// Runs a command that writes to this sink.
pub fn run_into(
    alloc: Global,
    command: Command,
    devices: &mut Devices,
    out: &mut NarrowSink,
) -> Status {
    run_command(
        alloc,
        command,
        tree_face::Devices {
            store: &mut devices.store,
            disk: &mut devices.disk,
            source: &mut devices.input,
            sink: out,
        },
    )
}

/// Whether the slot's file has these bytes, or is missing if `want` is None.
pub fn has<D: Disk>(alloc: Global, disk: &mut D, slot: Slot, want: Option<&[u8]>) -> bool {
    match (disk.read(alloc, slot), want) {
        (Ok(Some(found)), Some(want)) => found.as_slice() == want,
        (Ok(None), None) => true,
        _ => false,
    }
}

/// Whether a run with this status has left the expected results.
pub fn is_left(
    alloc: Global,
    setting: Setting<'_>,
    status: Status,
    devices: &mut Devices,
    want: Wanted<'_>,
) -> bool {
    status == want.status
        && devices.out.written() == want.written
        && has(
            alloc,
            &mut devices.disk,
            Slot::Manifest,
            want.manifest.or(setting.manifest),
        )
        && has(alloc, &mut devices.disk, Slot::Cache, Some(want.cache))
        && has(
            alloc,
            &mut devices.disk,
            Slot::Aux,
            want.aux.or(setting.aux),
        )
}

/// The calls that replace these slots, one slot after another.
pub fn replacing_calls(alloc: Global, slots: &[Slot]) -> Result<Vec<DoneCall>, NoMemory> {
    let mut calls = Vec::new(alloc);
    for slot in slots {
        for call in [
            Call::Create,
            Call::Append,
            Call::Sync,
            Call::Publish,
            Call::Settle,
        ] {
            calls.push(DoneCall {
                tag: Tag(0),
                slot: *slot,
                call,
            })?;
        }
    }
    Ok(calls)
}
