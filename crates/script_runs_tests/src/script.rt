//! A script of two updates, and the possible contents of the files when it ends early.
use command_runs_fixture::{Devices, Held, OLD, Setting, all, has, image, make_devices};
use std::alloc::Global;
use std::test::Fail;
use tree_face::{MemDisk, MemSource, Slot};

/// A library, an update, another library in its place, and another update, which plans a link.
pub(crate) const SCRIPT: &[u8] = b"\
    put ./usr/lib/liba.so.1 type=file inode=5 ctime=1 size=251 contents=one\n\
    update\n\
    put ./usr/lib/liba.so.1 type=file inode=5 ctime=2 size=251 contents=two\n\
    update\n";

/// The script's two updates.
pub(crate) const UPDATES: u64 = 2;

/// The number of writing calls of an update: five for the manifest, five for the cache, and five for the auxiliary cache.
pub(crate) const CALLS: u64 = 15;

const HELD: &[Held<'_>] = &[
    Held::Library("one", "liba.so.1"),
    Held::Library("two", "liba.so.2"),
];

const EMPTY_MANIFEST: &[u8] = b"#mtree\n";

const FIRST_MANIFEST: &[u8] =
    b"#mtree\n./usr/lib/liba.so.1 type=file dev=0 inode=5 ctime=1 size=251 contents=one\n";

const SECOND_MANIFEST: &[u8] =
    b"#mtree\n./usr/lib/liba.so.1 type=file dev=0 inode=5 ctime=2 size=251 contents=two\n./usr/lib/liba.so.2 type=link link=liba.so.1\n";

/// A cache of `/usr/lib/liba.so.1`: 158 bytes.
const FIRST_CACHE: &[u8] = b"\
    glibc-ld.so.cache1.1\x01\x00\x00\x00\x13\x00\x00\x00\
    \x02\x00\x00\x00\x5c\x00\x00\x00\x00\x00\x00\x00\x00\x00\x00\x00\x00\x00\x00\x00\
    \x03\x03\x00\x00\x51\x00\x00\x00\x48\x00\x00\x00\x00\x00\x00\x00\x00\x00\x00\x00\x00\x00\x00\x00\
    /usr/lib/liba.so.1\0\
    \x00\
    \x74\x21\xa4\xea\x01\x00\x00\x00\x00\x00\x00\x00\x00\x00\x00\x00\x74\x00\x00\x00\x2a\x00\x00\x00\
    ldconfig (image profile) release version 1";

/// A cache of `/usr/lib/liba.so.2`: 158 bytes.
const SECOND_CACHE: &[u8] = b"\
    glibc-ld.so.cache1.1\x01\x00\x00\x00\x13\x00\x00\x00\
    \x02\x00\x00\x00\x5c\x00\x00\x00\x00\x00\x00\x00\x00\x00\x00\x00\x00\x00\x00\x00\
    \x03\x03\x00\x00\x51\x00\x00\x00\x48\x00\x00\x00\x00\x00\x00\x00\x00\x00\x00\x00\x00\x00\x00\x00\
    /usr/lib/liba.so.2\0\
    \x00\
    \x74\x21\xa4\xea\x01\x00\x00\x00\x00\x00\x00\x00\x00\x00\x00\x00\x74\x00\x00\x00\x2a\x00\x00\x00\
    ldconfig (image profile) release version 1";

/// An auxiliary cache of the first library's stamp: 91 bytes.
const FIRST_AUX: &[u8] = b"glibc-ld.so.auxcache-1.1\x01\x00\x00\x00\x0b\x00\x00\x00\
    \x05\x00\x00\x00\x00\x00\x00\x00\x01\x00\x00\x00\x00\x00\x00\x00\xfb\x00\x00\x00\x00\x00\x00\x00\x00\x00\x00\x00\x00\x00\x00\x00\
    \x03\x03\x00\x00\x01\x00\x00\x00\x00\x00\x00\x00\x00\x00\x00\x00\
    \0liba.so.1\0";

/// An auxiliary cache of the second library's stamp: 91 bytes.
const SECOND_AUX: &[u8] = b"glibc-ld.so.auxcache-1.1\x01\x00\x00\x00\x0b\x00\x00\x00\
    \x05\x00\x00\x00\x00\x00\x00\x00\x02\x00\x00\x00\x00\x00\x00\x00\xfb\x00\x00\x00\x00\x00\x00\x00\x00\x00\x00\x00\x00\x00\x00\x00\
    \x03\x03\x00\x00\x01\x00\x00\x00\x00\x00\x00\x00\x00\x00\x00\x00\
    \0liba.so.2\0";

const FIRST_REPORT: &[u8] = b"1 libs, 0 links, 1 files opened\n";

const BOTH_REPORTS: &[u8] =
    b"1 libs, 0 links, 1 files opened\nlink: /usr/lib/liba.so.2 -> liba.so.1\n1 libs, 1 links, 1 files opened\n";

/// The content of a slot's file after this number of updates.
pub(crate) fn content(slot: Slot, updates: u64) -> Option<&'static [u8]> {
    match (slot, updates) {
        (Slot::Manifest, 0) => Some(EMPTY_MANIFEST),
        (Slot::Manifest, 1) => Some(FIRST_MANIFEST),
        (Slot::Manifest, _) => Some(SECOND_MANIFEST),
        (Slot::Cache, 0) => Some(OLD),
        (Slot::Cache, 1) => Some(FIRST_CACHE),
        (Slot::Cache, _) => Some(SECOND_CACHE),
        (Slot::Aux, 0) => None,
        (Slot::Aux, 1) => Some(FIRST_AUX),
        (Slot::Aux, _) => Some(SECOND_AUX),
    }
}

/// The reports of this number of updates.
pub(crate) fn reports(updates: u64) -> &'static [u8] {
    match updates {
        0 => b"",
        1 => FIRST_REPORT,
        _ => BOTH_REPORTS,
    }
}

/// The slots, each with the bit of a crash's choice that selects between its contents.
pub(crate) const SLOTS: &[(Slot, u8)] = &[(Slot::Manifest, 1), (Slot::Cache, 2), (Slot::Aux, 4)];

// The number of the writing call of an update that renames a slot's file into place, counted from 0.
fn publishing(slot: Slot) -> u64 {
    match slot {
        Slot::Manifest => 3,
        Slot::Cache => 8,
        Slot::Aux => 13,
    }
}

// The number of updates that have renamed a slot's file into place before the writing call with this number.
fn published_before(slot: Slot, call: u64) -> u64 {
    let calls = CALLS.saturating_sub(1).saturating_sub(publishing(slot));
    call.saturating_add(calls) / CALLS
}

/// The two possible contents of a slot's file if the writing call with this number fails, or if the machine crashes after it: the content
/// before the call and the content after it. They differ only if the call renames the file into place.
pub(crate) fn contents(slot: Slot, call: u64) -> (Option<&'static [u8]>, Option<&'static [u8]>) {
    let following = call.saturating_add(1);
    (
        content(slot, published_before(slot, call)),
        content(slot, published_before(slot, following)),
    )
}

/// Whether each slot's file has one of its possible contents after the writing call with this number has failed.
pub(crate) fn may_be_left(alloc: Global, disk: &mut MemDisk, call: u64) -> bool {
    let mut may_be = true;
    for (slot, _) in SLOTS {
        let (old, new) = contents(*slot, call);
        may_be = may_be && (has(alloc, disk, *slot, old) || has(alloc, disk, *slot, new));
    }
    may_be
}

/// Whether each slot's file has its content after this number of updates.
pub(crate) fn is_after(alloc: Global, disk: &mut MemDisk, updates: u64) -> bool {
    let mut is_so = true;
    for (slot, _) in SLOTS {
        is_so = is_so && has(alloc, disk, *slot, content(*slot, updates));
    }
    is_so
}

/// Devices with the script, an empty image and both libraries. They fail as `setting` says.
pub(crate) fn devices_of(alloc: Global, setting: Setting<'_>) -> Result<Devices, Fail> {
    let mut devices = make_devices(alloc, setting, all(alloc, HELD)?)?;
    devices.input = MemSource::new(Vec::from_slice(alloc, SCRIPT)?, Vec::new(alloc));
    Ok(devices)
}

/// An empty image. No device fails.
pub(crate) fn sure() -> Setting<'static> {
    image(EMPTY_MANIFEST)
}

/// The reports of this number of updates, and a fault line.
pub(crate) fn text_of(alloc: Global, updates: u64, fault: &str) -> Result<Vec<u8>, Fail> {
    let mut text = Vec::from_slice(alloc, reports(updates))?;
    text.extend_from_slice(fault.as_bytes())?;
    Ok(text)
}
