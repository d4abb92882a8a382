//! The largest numbers of entries, nodes and bytes, and one more of each.
use command_runs::Status;
use command_runs_fixture::{
    Devices, EMPTY_CACHE, Held, OLD, all, has, image, make_devices, run_script, run_update,
};
use lib_types::Failed;
use mtree_manifest::MANIFEST_MAX;
use std::alloc::Global;
use std::process::Abort;
use std::test::Fail;
use tree_face::{Disk, MemSource, Slot, Source};

const MOST_ENTRIES: usize = 262144;

const MOST_NODES: usize = 1048576;

// 2^26 - 7 - 43 - 47 - 68548 * 979, minus the 24 bytes of `./rest/folder/` and ` type=dir` and the newline
const REST: usize = 251;

// A manifest of `count` lines, each with a number of seven digits between two texts.
fn numbered(alloc: Global, before: &str, count: usize, following: &str) -> Result<Vec<u8>, Fail> {
    let mut text = Vec::from_slice(alloc, b"#mtree\n")?;
    for n in 0..count {
        text.extend_from_slice(before.as_bytes())?;
        let digits = [
            n / 1_000_000,
            n / 100_000,
            n / 10_000,
            n / 1_000,
            n / 100,
            n / 10,
            n,
        ];
        for digit in digits {
            text.push(b'0' + (digit % 10) as u8)?;
        }
        text.extend_from_slice(following.as_bytes())?;
    }
    Ok(text)
}

// Runs an update of a manifest that is too large. The update must leave everything as it was.
fn assert_refused(
    rt: &impl Abort,
    alloc: Global,
    manifest: &[u8],
    held: &[Held<'_>],
    want: Status,
    line: &str,
) -> Result<(), Fail> {
    let mut devices = make_devices(alloc, image(manifest), all(alloc, held)?)?;
    let status = run_update(alloc, &mut devices);
    assert!(rt; status == want);
    assert!(rt; devices.out.written() == line.as_bytes());
    assert!(rt; devices.disk.calls().is_empty());
    let disk = &mut devices.disk;
    assert!(rt; has(alloc, disk, Slot::Manifest, Some(manifest)));
    assert!(rt; has(alloc, disk, Slot::Cache, Some(OLD)));
    assert!(rt; has(alloc, disk, Slot::Aux, None));
    Ok(())
}

// Runs an update of a manifest that isn't too large, and returns the lengths of the manifest and of the cache that it leaves.
fn assert_done(
    rt: &impl Abort,
    alloc: Global,
    manifest: &[u8],
    held: &[Held<'_>],
    report: &str,
) -> Result<(usize, usize), Fail> {
    let mut devices = make_devices(alloc, image(manifest), all(alloc, held)?)?;
    let status = run_update(alloc, &mut devices);
    assert!(rt; status == Status::Done);
    assert!(rt; devices.out.written() == report.as_bytes());
    let manifest = size(alloc, &mut devices, Slot::Manifest)?;
    Ok((manifest, size(alloc, &mut devices, Slot::Cache)?))
}

// The number of bytes in the slot's file.
fn size(alloc: Global, devices: &mut Devices, slot: Slot) -> Result<usize, Fail> {
    match devices.disk.read(alloc, slot)? {
        Some(bytes) => Ok(bytes.len()),
        None => Ok(0),
    }
}

// All files have the same content, which has no DT_SONAME.
#[test]
fn entries_of_a_cache(rt: HostRuntime) -> Result<(), Fail> {
    let alloc = rt.alloc();
    let held = [Held::Nameless("k")];
    let most = numbered(alloc, "./usr/lib/lib", MOST_ENTRIES, ".so contents=k\n")?;
    let report = "262144 libs, 0 links, 262144 files opened\n";
    let sizes = assert_done(&rt, alloc, &most, &held, report)?;
    // an entry has 24 bytes and a path 23, whose end is the soname
    assert!(rt; sizes == (most.len(), 48 + MOST_ENTRIES * (24 + 23) + 24 + 42));
    let more = numbered(alloc, "./usr/lib/lib", MOST_ENTRIES + 1, ".so contents=k\n")?;
    let want = Status::TooMany { count: 262145 };
    assert_refused(&rt, alloc, &more, &held, want, "fault: TooMany 262145\n")
}

// A library for which a link is planned, among directories.
#[test]
fn nodes_of_a_tree(rt: HostRuntime) -> Result<(), Fail> {
    let alloc = rt.alloc();
    let held = [Held::Library("k", "libk.so.1")];
    let library = b"./usr/lib/libk.so.1.2 contents=k\n";
    let mut most = numbered(alloc, "./d", MOST_NODES - 2, " type=dir\n")?;
    most.extend_from_slice(library)?;
    let report = "link: /usr/lib/libk.so.1 -> libk.so.1.2\n1 libs, 1 links, 1 files opened\n";
    let (size, _) = assert_done(&rt, alloc, &most, &held, report)?;
    // the update adds ` type=file` and the link's line
    let wanted = most.len().saturating_add(10 + 47);
    assert!(rt; size == wanted);
    let mut more = numbered(alloc, "./d", MOST_NODES - 1, " type=dir\n")?;
    more.extend_from_slice(library)?;
    let want = Status::TooLarge {
        nodes: 1048577,
        bytes: 0,
    };
    assert_refused(&rt, alloc, &more, &held, want, "fault: TooLarge\n")?;
    // the store first lacks a library that a search needs, whose fault comes first; then it lacks one that only a link leads to, whose
    // fault doesn't
    assert_refused(
        &rt,
        alloc,
        &more,
        &[],
        Status::StoreFault,
        "fault: StoreFault\n",
    )?;
    let mut lacking = numbered(alloc, "./d", MOST_NODES - 3, " type=dir\n")?;
    lacking.extend_from_slice(library)?;
    lacking.extend_from_slice(b"./none\n./usr/lib/libn.so type=link link=/none\n")?;
    assert_refused(&rt, alloc, &lacking, &held, want, "fault: TooLarge\n")
}

// A manifest whose new text has 2^26 bytes plus `added` ones in the name of a directory. It has 68,548 directories of 979 bytes each,
// because a byte that isn't ASCII is written as four bytes. The rest is the head with 7 bytes, the library with 43, its link with 47, and
// a directory that fills the remaining bytes.
fn expanding(alloc: Global, added: usize) -> Result<Vec<u8>, Fail> {
    let mut name = String::from_str(alloc, "./")?;
    for _ in 0..120 {
        name.push('é')?;
    }
    let mut text = numbered(alloc, name.as_str(), 68548, " type=dir\n")?;
    text.extend_from_slice(b"./usr/lib/libk.so.1.2 contents=k\n./rest/folder/")?;
    for _ in 0..REST.saturating_add(added) {
        text.push(b'r')?;
    }
    text.extend_from_slice(b" type=dir\n")?;
    Ok(text)
}

#[test]
fn bytes_of_a_manifest(rt: HostRuntime) -> Result<(), Fail> {
    let alloc = rt.alloc();
    let held = [Held::Library("k", "libk.so.1")];
    let report = "link: /usr/lib/libk.so.1 -> libk.so.1.2\n1 libs, 1 links, 1 files opened\n";
    let most = expanding(alloc, 0)?;
    let (size, _) = assert_done(&rt, alloc, &most, &held, report)?;
    assert!(rt; size == MANIFEST_MAX);
    let more = expanding(alloc, 1)?;
    let want = Status::TooLarge {
        nodes: 68551,
        bytes: 67108865,
    };
    assert_refused(&rt, alloc, &more, &held, want, "fault: TooLarge\n")
}

// A comment of 64 bytes, including its newline.
const COMMENT: &[u8] = b"# a comment of a script, which asks for nothing, and is ignored\n";

// A script of 2^26 bytes with one update, followed by `more` bytes.
fn script_of(alloc: Global, more: usize) -> Result<Vec<u8>, Fail> {
    let mut text = Vec::new(alloc);
    for _ in 1..1 << 20 {
        text.extend_from_slice(COMMENT)?;
    }
    text.extend_from_slice(b"update\n")?;
    for _ in 0..57usize.saturating_add(more) {
        text.push(b'#')?;
    }
    Ok(text)
}

// The number of bytes that the source has left, up to eight.
fn left_in(devices: &mut Devices) -> Result<usize, Failed> {
    devices.input.read(&mut [0; 8])
}

#[test]
fn bytes_of_a_script(rt: HostRuntime) -> Result<(), Fail> {
    let alloc = rt.alloc();
    let manifest = b"#mtree\n";
    let mut devices = make_devices(alloc, image(manifest), Vec::new(alloc))?;
    devices.input = MemSource::new(script_of(alloc, 0)?, Vec::new(alloc));
    assert!(rt; run_script(alloc, &mut devices) == Status::Done);
    assert!(rt; devices.out.written() == b"0 libs, 0 links, 0 files opened\n".as_slice());
    assert!(rt; has(alloc, &mut devices.disk, Slot::Cache, Some(EMPTY_CACHE)));
    // one byte more than a script may have is read, and nothing is done
    let mut devices = make_devices(alloc, image(manifest), Vec::new(alloc))?;
    devices.input = MemSource::new(script_of(alloc, 3)?, Vec::new(alloc));
    let want = Status::TooLong { taken: 67108865 };
    assert!(rt; run_script(alloc, &mut devices) == want);
    assert!(rt; left_in(&mut devices)? == 2);
    assert!(rt; devices.out.written() == b"fault: TooLong\n".as_slice());
    assert!(rt; devices.disk.reads().is_empty());
    assert!(rt; has(alloc, &mut devices.disk, Slot::Cache, Some(OLD)));
    Ok(())
}
