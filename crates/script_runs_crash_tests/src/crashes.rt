//! A machine that stops at each writing call of an update, and the next update of each image that may be left. An update is one of a
//! manifest, or of the image that layers make.
use command_runs::Status;
use command_runs_fixture::{
    Devices, Held, NO_STAMPS, OLD, Setting, all, has, image, make_devices, run_update,
};
use layer_runs::run_layers;
use lib_types::{Text, Texts};
use std::alloc::Global;
use std::process::Abort;
use std::test::Fail;
use tree_face::{MemDisk, Slot};

/// A cache of `libfoo.so.1` in `/usr/lib`: 162 bytes.
const CACHE: &[u8] = b"\
    glibc-ld.so.cache1.1\x01\x00\x00\x00\x15\x00\x00\x00\
    \x02\x00\x00\x00\x60\x00\x00\x00\x00\x00\x00\x00\x00\x00\x00\x00\x00\x00\x00\x00\
    \x03\x03\x00\x00\x51\x00\x00\x00\x48\x00\x00\x00\x00\x00\x00\x00\x00\x00\x00\x00\x00\x00\x00\x00\
    /usr/lib/libfoo.so.1\0\
    \x00\x00\x00\
    \x74\x21\xa4\xea\x01\x00\x00\x00\x00\x00\x00\x00\x00\x00\x00\x00\x78\x00\x00\x00\x2a\x00\x00\x00\
    ldconfig (image profile) release version 1";

const HELD: &[Held<'_>] = &[
    Held::Library("usr/lib/libfoo.so.1.1", "libfoo.so.1"),
    Held::Library("usr/lib/libfoo.so.1.2", "libfoo.so.1"),
];

/// The manifest file and the auxiliary cache file before an update that plans a link, and after it.
#[derive(Clone, Copy)]
struct Update<'a> {
    /// The keys of the layers, with their manifests. Without layers the image is that of the manifest file.
    layers: &'a [(&'a str, &'a str)],
    manifests: (&'a [u8], &'a [u8]),
    auxes: (Option<&'a [u8]>, &'a [u8]),
}

const WITHOUT_IDENTITIES: Update<'_> = Update {
    layers: &[],
    manifests: (
        b"#mtree\n./usr/lib/libfoo.so.1 type=link link=libfoo.so.1.1\n./usr/lib/libfoo.so.1.1 type=file\n./usr/lib/libfoo.so.1.2 type=file\n",
        b"#mtree\n./usr/lib/libfoo.so.1 type=link link=libfoo.so.1.2\n./usr/lib/libfoo.so.1.1 type=file\n./usr/lib/libfoo.so.1.2 type=file\n",
    ),
    auxes: (None, NO_STAMPS),
};

// Before the update there are stamps of the only library, and of a file that is gone, in a file of version 1.0.
const WITH_IDENTITIES: Update<'_> = Update {
    layers: &[],
    manifests: (
        b"#mtree\n./usr/lib/libfoo.so.1 type=link link=libfoo.so.1.1\n./usr/lib/libfoo.so.1.1 type=file dev=0 inode=1 ctime=3 size=253\n./usr/lib/libfoo.so.1.2 type=file dev=0 inode=2 ctime=4 size=253\n",
        b"#mtree\n./usr/lib/libfoo.so.1 type=link link=libfoo.so.1.2\n./usr/lib/libfoo.so.1.1 type=file dev=0 inode=1 ctime=3 size=253\n./usr/lib/libfoo.so.1.2 type=file dev=0 inode=2 ctime=4 size=253\n",
    ),
    auxes: (
        Some(
            b"glibc-ld.so.auxcache-1.0\x02\x00\x00\x00\x0d\x00\x00\x00\
            \x01\x00\x00\x00\x00\x00\x00\x00\x03\x00\x00\x00\x00\x00\x00\x00\xfd\x00\x00\x00\x00\x00\x00\x00\x00\x00\x00\x00\x00\x00\x00\x00\
            \x03\x03\x00\x00\x01\x00\x00\x00\x00\x00\x00\x00\x00\x00\x00\x00\
            \x09\x00\x00\x00\x00\x00\x00\x00\x03\x00\x00\x00\x00\x00\x00\x00\xfd\x00\x00\x00\x00\x00\x00\x00\x00\x00\x00\x00\x00\x00\x00\x00\
            \x03\x03\x00\x00\x01\x00\x00\x00\x00\x00\x00\x00\x00\x00\x00\x00\
            \0libfoo.so.1\0",
        ),
        b"glibc-ld.so.auxcache-1.1\x02\x00\x00\x00\x0d\x00\x00\x00\
        \x01\x00\x00\x00\x00\x00\x00\x00\x03\x00\x00\x00\x00\x00\x00\x00\xfd\x00\x00\x00\x00\x00\x00\x00\x00\x00\x00\x00\x00\x00\x00\x00\
        \x03\x03\x00\x00\x01\x00\x00\x00\x00\x00\x00\x00\x00\x00\x00\x00\
        \x02\x00\x00\x00\x00\x00\x00\x00\x04\x00\x00\x00\x00\x00\x00\x00\xfd\x00\x00\x00\x00\x00\x00\x00\x00\x00\x00\x00\x00\x00\x00\x00\
        \x03\x03\x00\x00\x01\x00\x00\x00\x00\x00\x00\x00\x00\x00\x00\x00\
        \0libfoo.so.1\0",
    ),
};

// The upper layer has another version of the library, and removes a file. The image is that of the manifests above.
const OF_LAYERS: Update<'_> = Update {
    layers: &[
        (
            "base",
            "#mtree\n./etc/old type=file\n./usr/lib/libfoo.so.1 type=link link=libfoo.so.1.1\n./usr/lib/libfoo.so.1.1 type=file inode=1 ctime=3 size=253\n",
        ),
        (
            "top",
            "#mtree\n./etc/.wh.old type=file\n./usr/lib/libfoo.so.1.2 type=file inode=2 ctime=4 size=253\n",
        ),
    ],
    ..WITH_IDENTITIES
};

// The content that a crash may leave in a slot's file.
#[derive(Clone, Copy)]
enum Left {
    Old,
    /// The choice decides.
    OldOrNew,
    New,
}

// The number of writing calls, and what a crash may then leave of the manifest, of the cache and of the auxiliary cache.
type Row = (u64, Left, Left, Left);

// Five calls write the manifest, then five the cache, and then five the auxiliary cache.
const TABLE: &[Row] = &[
    (0, Left::Old, Left::Old, Left::Old),
    (1, Left::Old, Left::Old, Left::Old),
    (2, Left::Old, Left::Old, Left::Old),
    (3, Left::Old, Left::Old, Left::Old),
    (4, Left::OldOrNew, Left::Old, Left::Old),
    (5, Left::New, Left::Old, Left::Old),
    (6, Left::New, Left::Old, Left::Old),
    (7, Left::New, Left::Old, Left::Old),
    (8, Left::New, Left::Old, Left::Old),
    (9, Left::New, Left::OldOrNew, Left::Old),
    (10, Left::New, Left::New, Left::Old),
    (11, Left::New, Left::New, Left::Old),
    (12, Left::New, Left::New, Left::Old),
    (13, Left::New, Left::New, Left::Old),
    (14, Left::New, Left::New, Left::OldOrNew),
    (15, Left::New, Left::New, Left::New),
];

// The content that is left. `chosen` says whether the choice has the new one.
fn content<'a>(left: Left, chosen: bool, old: Option<&'a [u8]>, new: &'a [u8]) -> Option<&'a [u8]> {
    match left {
        Left::Old => old,
        Left::OldOrNew if !chosen => old,
        _ => Some(new),
    }
}

fn devices_of(alloc: Global, update: &Update<'_>) -> Result<Devices, Fail> {
    let setting = Setting {
        aux: update.auxes.0,
        ..image(update.manifests.0)
    };
    let mut held = all(alloc, HELD)?;
    for (key, manifest) in update.layers {
        held.push((
            Text::copy_of(alloc, key.as_bytes())?,
            Text::copy_of(alloc, manifest.as_bytes())?,
        ))?;
    }
    Ok(make_devices(alloc, setting, held)?)
}

fn run(alloc: Global, update: &Update<'_>, devices: &mut Devices) -> Result<Status, Fail> {
    if update.layers.is_empty() {
        return Ok(run_update(alloc, devices));
    }
    let mut keys = Texts::new(alloc);
    for (key, _) in update.layers {
        keys.push(Text::copy_of(alloc, key.as_bytes())?)?;
    }
    Ok(run_layers(
        alloc,
        &keys,
        &mut devices.store,
        &mut devices.disk,
        &mut devices.out,
    ))
}

// The next update of an image leaves what an undisturbed update leaves.
fn assert_repaired(
    rt: &impl Abort,
    alloc: Global,
    update: &Update<'_>,
    image: MemDisk,
    calls: u64,
    choice: u8,
) -> Result<(), Fail> {
    let mut devices = devices_of(alloc, update)?;
    devices.disk = image;
    let status = run(alloc, update, &mut devices)?;
    assert!(rt; status == Status::Done, "after {calls}, {choice}");
    let disk = &mut devices.disk;
    let is_whole = has(alloc, disk, Slot::Manifest, Some(update.manifests.1))
        && has(alloc, disk, Slot::Cache, Some(CACHE))
        && has(alloc, disk, Slot::Aux, Some(update.auxes.1));
    assert!(rt; is_whole, "after {calls}, {choice}");
    Ok(())
}

// Whether the image of this choice has the contents of the table's row.
fn is_image(alloc: Global, update: &Update<'_>, image: &mut MemDisk, choice: u8, row: Row) -> bool {
    let (_, manifest, cache, aux) = row;
    let (before, after) = update.manifests;
    let (old, new) = update.auxes;
    let manifest = content(manifest, choice & 1 != 0, Some(before), after);
    let cache = content(cache, choice & 2 != 0, Some(OLD), CACHE);
    let aux = content(aux, choice & 4 != 0, old, new);
    has(alloc, image, Slot::Manifest, manifest)
        && has(alloc, image, Slot::Cache, cache)
        && has(alloc, image, Slot::Aux, aux)
}

// Stops an update after this number of writing calls, and checks each image that a crash may then leave.
fn assert_stopped(
    rt: &impl Abort,
    alloc: Global,
    update: &Update<'_>,
    row: Row,
) -> Result<(), Fail> {
    let calls = row.0;
    let mut devices = devices_of(alloc, update)?;
    devices.disk.stop_after(calls);
    let status = run(alloc, update, &mut devices)?;
    let want = if calls < 15 {
        Status::DiskFault
    } else {
        Status::Done
    };
    assert!(rt; status == want, "after {calls}");
    assert!(rt; devices.disk.calls().len() as u64 == calls);
    for choice in 0..8 {
        let mut image = devices.disk.image(alloc, choice)?;
        assert!(rt;
            is_image(alloc, update, &mut image, choice, row),
            "after {calls}, {choice}"
        );
        assert_repaired(rt, alloc, update, image, calls, choice)?;
    }
    Ok(())
}

#[test]
fn each_slot_is_old_or_new_in_order(rt: HostRuntime) -> Result<(), Fail> {
    for row in TABLE {
        assert_stopped(&rt, rt.alloc(), &WITHOUT_IDENTITIES, *row)?;
    }
    Ok(())
}

#[test]
fn each_slot_is_old_or_new_with_identities(rt: HostRuntime) -> Result<(), Fail> {
    for row in TABLE {
        assert_stopped(&rt, rt.alloc(), &WITH_IDENTITIES, *row)?;
    }
    Ok(())
}

#[test]
fn each_slot_is_old_or_new_over_layers(rt: HostRuntime) -> Result<(), Fail> {
    for row in TABLE {
        assert_stopped(&rt, rt.alloc(), &OF_LAYERS, *row)?;
    }
    Ok(())
}
