//! Devices that fail, each at each of its calls.
use command_runs::Status;
use command_runs_fixture::{
    Devices, Held, LIBZ_MANIFEST, LIBZ_REPORT, NO_STAMPS, NarrowSink, OLD, ONE_CACHE, Setting,
    Wanted, all, done, has, image, is_left, make_devices, refused, replacing_calls, run_into,
    run_update,
};
use command_words::Command;
use lib_types::NoMemory;
use mtree_manifest::{LineKind, ManifestFault};
use std::alloc::Global;
use std::process::Abort;
use std::test::Fail;
use tree_face::{Disk, Slot, Tag};

// Runs an update, compares everything that it leaves, and returns the number of files that it opens.
fn assert_update(
    rt: &impl Abort,
    alloc: Global,
    setting: Setting<'_>,
    held: &[Held<'_>],
    want: Wanted<'_>,
) -> Result<u64, Fail> {
    let mut devices = make_devices(alloc, setting, all(alloc, held)?)?;
    let status = run_update(alloc, &mut devices);
    assert!(rt; is_left(alloc, setting, status, &mut devices, want));
    Ok(devices.store.begun())
}

// Runs an update whose store fails or lacks a file. The update must leave everything as it was. Returns the number of files that it opens.
fn assert_store_fault(
    rt: &impl Abort,
    alloc: Global,
    manifest: &[u8],
    held: &[Held<'_>],
    store_fails: Option<u64>,
) -> Result<u64, Fail> {
    let setting = Setting {
        store_fails,
        ..image(manifest)
    };
    let want = refused(Status::StoreFault, b"fault: StoreFault\n");
    assert_update(rt, alloc, setting, held, want)
}

#[test]
fn the_store_fails(rt: HostRuntime) -> Result<(), Fail> {
    let alloc = rt.alloc();
    // the file is opened; then header, program headers, dynamic entries and the text are read, in one call each
    for call in 0..5 {
        let _ = assert_store_fault(&rt, alloc, LIBZ_MANIFEST, LIBZ.held, Some(call))?;
    }
    let _ = assert_store_fault(&rt, alloc, LIBZ_MANIFEST, &[], None)?;
    Ok(())
}

// A conf file, a library for which a link is planned, and one to which only a link leads.
const LINKED_MANIFEST: &[u8] =
    b"#mtree\n./etc/ld.so.conf type=file\n./q/f type=file\n./usr/lib/libfoo.so.1 type=link link=libfoo.so.1.1\n./usr/lib/libfoo.so.1.2 type=file\n./usr/lib/libq.so.1 type=link link=../../q/f\n";

const LINKED_AFTER: &[u8] =
    b"#mtree\n./etc/ld.so.conf type=file\n./q/f type=file\n./usr/lib/libfoo.so.1 type=link link=libfoo.so.1.2\n./usr/lib/libfoo.so.1.2 type=file\n./usr/lib/libq.so.1 type=link link=../../q/f\n";

const LINKED_REPORT: &[u8] =
    b"link: /usr/lib/libfoo.so.1 -> libfoo.so.1.2\n2 libs, 1 links, 2 files opened\n";

const CONF: Held<'_> = Held::Text("etc/ld.so.conf", "# none\n");

const FOO: Held<'_> = Held::Library("usr/lib/libfoo.so.1.2", "libfoo.so.1");

const Q: Held<'_> = Held::Library("q/f", "libq.so.1");

const LINKED_HELD: &[Held<'_>] = &[CONF, FOO, Q];

/// A cache of `libq.so.1` and `libfoo.so.1` in `/usr/lib`: 202 bytes.
const LINKED_CACHE: &[u8] = b"\
    glibc-ld.so.cache1.1\x02\x00\x00\x00\x28\x00\x00\x00\
    \x02\x00\x00\x00\x88\x00\x00\x00\x00\x00\x00\x00\x00\x00\x00\x00\x00\x00\x00\x00\
    \x03\x03\x00\x00\x69\x00\x00\x00\x60\x00\x00\x00\x00\x00\x00\x00\x00\x00\x00\x00\x00\x00\x00\x00\
    \x03\x03\x00\x00\x7c\x00\x00\x00\x73\x00\x00\x00\x00\x00\x00\x00\x00\x00\x00\x00\x00\x00\x00\x00\
    /usr/lib/libq.so.1\0\
    /usr/lib/libfoo.so.1\0\
    \x74\x21\xa4\xea\x01\x00\x00\x00\x00\x00\x00\x00\x00\x00\x00\x00\xa0\x00\x00\x00\x2a\x00\x00\x00\
    ldconfig (image profile) release version 1";

// The store lacks each file in turn. The number is how many files are opened, including the missing one.
const LACKING: &[(&[Held<'_>], u64)] = &[(&[FOO, Q], 1), (&[CONF, Q], 2), (&[CONF, FOO], 3)];

// What an update of the linked image leaves.
fn linked() -> Wanted<'static> {
    Wanted {
        manifest: Some(LINKED_AFTER),
        ..done(LINKED_REPORT, LINKED_CACHE)
    }
}

// The conf file takes two calls, to open it and to read it. Each library takes five, so there are 12 in all.
#[test]
fn the_store_fails_at_each_file(rt: HostRuntime) -> Result<(), Fail> {
    let alloc = rt.alloc();
    for call in 0..12 {
        let _ = assert_store_fault(&rt, alloc, LINKED_MANIFEST, LINKED_HELD, Some(call))?;
    }
    let setting = Setting {
        store_fails: Some(12),
        ..image(LINKED_MANIFEST)
    };
    let _ = assert_update(&rt, alloc, setting, LINKED_HELD, linked())?;
    for (held, begun) in LACKING {
        let found = assert_store_fault(&rt, alloc, LINKED_MANIFEST, *held, None)?;
        assert!(rt; found == *begun);
    }
    Ok(())
}

// An image, what it is updated to, and the slots that are written.
#[derive(Clone, Copy)]
struct Update<'a> {
    before: &'a [u8],
    manifest: &'a [u8],
    cache: &'a [u8],
    slots: &'a [Slot],
    /// The number of its writing calls.
    calls: u64,
    held: &'a [Held<'a>],
}

const LIBZ: Update<'_> = Update {
    before: LIBZ_MANIFEST,
    manifest: LIBZ_MANIFEST,
    cache: ONE_CACHE,
    slots: &[Slot::Cache, Slot::Aux],
    calls: 10,
    held: &[Held::Library("usr/lib/libz.so.1", "libz.so.1")],
};

const LINKED: Update<'_> = Update {
    before: LINKED_MANIFEST,
    manifest: LINKED_AFTER,
    cache: LINKED_CACHE,
    slots: &[Slot::Manifest, Slot::Cache, Slot::Aux],
    calls: 15,
    held: LINKED_HELD,
};

const UPDATES: &[Update<'_>] = &[LIBZ, LINKED];

// The number of disk calls that read a file. They come before the writing calls.
const READS: u64 = 2;

fn devices_of(
    alloc: Global,
    update: &Update<'_>,
    disk_fails: Option<u64>,
) -> Result<Devices, Fail> {
    let setting = Setting {
        disk_fails,
        ..image(update.before)
    };
    Ok(make_devices(alloc, setting, all(alloc, update.held)?)?)
}

// Whether the slot's file has a possible content, if the call `publishing` renames it into place and the call `failing` fails. The content
// None means that the file is absent. If the renaming call itself fails, the file has the old content or the new one.
fn is_old_or_new(
    alloc: Global,
    devices: &mut Devices,
    slot: Slot,
    contents: (Option<&[u8]>, &[u8]),
    publishing: u64,
    failing: u64,
) -> bool {
    let (old, new) = contents;
    let disk = &mut devices.disk;
    (failing <= publishing && has(alloc, disk, slot, old))
        || (failing >= publishing && has(alloc, disk, slot, Some(new)))
}

// Whether these are the first calls of an update.
fn are_first(
    alloc: Global,
    update: &Update<'_>,
    devices: &Devices,
    count: u64,
) -> Result<bool, NoMemory> {
    let mut calls = replacing_calls(alloc, update.slots)?;
    calls.truncate(count as usize);
    Ok(devices.disk.calls() == calls.as_slice())
}

// Whether an update in which a disk call failed has left a possible state. Calls 0 and 1 read the manifest and the auxiliary cache. Then
// five calls replace each file. The fourth of them renames it into place, so the last call but one does so for the auxiliary cache.
fn is_cut_short(alloc: Global, update: &Update<'_>, devices: &mut Devices, call: u64) -> bool {
    let manifests = (Some(update.before), update.manifest);
    let caches = (Some(OLD), update.cache);
    let last = update.calls;
    is_old_or_new(alloc, devices, Slot::Manifest, manifests, 5, call)
        && is_old_or_new(
            alloc,
            devices,
            Slot::Cache,
            caches,
            last.saturating_sub(5),
            call,
        )
        && is_old_or_new(alloc, devices, Slot::Aux, (None, NO_STAMPS), last, call)
}

fn assert_disk_fault(
    rt: &impl Abort,
    alloc: Global,
    update: &Update<'_>,
    status: Status,
    devices: &mut Devices,
    call: u64,
) -> Result<(), Fail> {
    assert!(rt; status == Status::DiskFault, "call {call}");
    assert!(rt;
        devices.out.written() == b"fault: DiskFault\n".as_slice(),
        "call {call}"
    );
    let made = call.saturating_sub(READS);
    assert!(rt; are_first(alloc, update, devices, made)?, "call {call}");
    assert!(rt; is_cut_short(alloc, update, devices, call), "call {call}");
    Ok(())
}

// Runs an update in which this disk call fails.
fn assert_fails(
    rt: &impl Abort,
    alloc: Global,
    update: &Update<'_>,
    call: u64,
) -> Result<(), Fail> {
    let mut devices = devices_of(alloc, update, Some(call))?;
    let status = run_update(alloc, &mut devices);
    assert_disk_fault(rt, alloc, update, status, &mut devices, call)
}

#[test]
fn the_disk_fails(rt: HostRuntime) -> Result<(), Fail> {
    for update in UPDATES {
        for call in 0..READS.saturating_add(update.calls) {
            assert_fails(&rt, rt.alloc(), update, call)?;
        }
    }
    Ok(())
}

fn is_readable(alloc: Global, devices: &mut Devices) -> bool {
    devices.disk.read(alloc, Slot::Cache).is_ok()
}

// Runs an update whose disk stops after this number of calls, and then a further update.
fn assert_stops(
    rt: &impl Abort,
    alloc: Global,
    update: &Update<'_>,
    calls: u64,
) -> Result<(), Fail> {
    let mut devices = devices_of(alloc, update, None)?;
    devices.disk.stop_after(calls);
    let status = run_update(alloc, &mut devices);
    assert!(rt; !is_readable(alloc, &mut devices), "after {calls}");
    // the disk works again
    devices.disk.stop_after(99);
    let failing = calls.saturating_add(READS);
    assert_disk_fault(rt, alloc, update, status, &mut devices, failing)?;
    assert_mended(rt, alloc, update, &mut devices)
}

// The next update leaves what an undisturbed update leaves.
fn assert_mended(
    rt: &impl Abort,
    alloc: Global,
    update: &Update<'_>,
    devices: &mut Devices,
) -> Result<(), Fail> {
    let status = run_update(alloc, devices);
    assert!(rt; status == Status::Done);
    let disk = &mut devices.disk;
    assert!(rt; has(alloc, disk, Slot::Manifest, Some(update.manifest)));
    assert!(rt; has(alloc, disk, Slot::Cache, Some(update.cache)));
    assert!(rt; has(alloc, disk, Slot::Aux, Some(NO_STAMPS)));
    Ok(())
}

#[test]
fn the_disk_stops(rt: HostRuntime) -> Result<(), Fail> {
    for update in UPDATES {
        for calls in 0..update.calls {
            assert_stops(&rt, rt.alloc(), update, calls)?;
        }
    }
    Ok(())
}

// Runs an update whose sink fails.
fn assert_sink_fault(
    rt: &impl Abort,
    alloc: Global,
    manifest: &[u8],
    want: Wanted<'_>,
) -> Result<(), Fail> {
    let setting = Setting {
        out_fails: Some(0),
        ..image(manifest)
    };
    let _ = assert_update(rt, alloc, setting, LINKED_HELD, want)?;
    Ok(())
}

const BAD: ManifestFault = ManifestFault::Bad {
    line: 1,
    kind: LineKind::BadType,
};

// Manifests with another error, which is reported first.
const REFUSED: &[(&[u8], Status)] = &[
    (b"./a type=x\n", Status::BadManifest(BAD)),
    (
        b"#mtree\n./usr/lib/liba.so.1 type=file\n",
        Status::StoreFault,
    ),
];

#[test]
fn the_sink_fails(rt: HostRuntime) -> Result<(), Fail> {
    let alloc = rt.alloc();
    let new = Wanted {
        status: Status::OutputFault,
        written: b"",
        ..linked()
    };
    assert_sink_fault(&rt, alloc, LINKED_MANIFEST, new)?;
    for (manifest, status) in REFUSED {
        assert_sink_fault(&rt, alloc, *manifest, refused(*status, b""))?;
    }
    Ok(())
}

// The call that fails, the status, and what was written before.
const WRITTEN: &[(u64, Status, &[u8])] = &[
    (9, Status::Done, LIBZ_REPORT),
    (4, Status::OutputFault, b"1 libs, 0 links, 1 files ope"),
    (1, Status::OutputFault, b"1 libs,"),
    (0, Status::OutputFault, b""),
];

const UPDATE: Command = Command::Update { tag: Tag(0) };

#[test]
fn a_sink_takes_parts(rt: HostRuntime) -> Result<(), Fail> {
    let alloc = rt.alloc();
    for (call, want, written) in WRITTEN {
        let mut devices = devices_of(alloc, &LIBZ, None)?;
        let mut out = NarrowSink::new(alloc, *call)?;
        let status = run_into(alloc, UPDATE, &mut devices, &mut out);
        assert!(rt; status == *want, "call {call}");
        assert!(rt; out.written() == *written, "call {call}");
        assert!(rt;
            has(alloc, &mut devices.disk, Slot::Cache, Some(ONE_CACHE)),
            "call {call}"
        );
    }
    Ok(())
}
