// Each device does its calls. On the devices that fail on demand, each call fails once.
use lib_types::{Failed, Text};
use std::alloc::Global;
use std::process::Abort;
use std::test::Fail;
use tree_face::{
    Call, Disk, DiskRead, DoneCall, MemDisk, MemSink, MemSource, MemStore, ReadFault, Sink, Slot,
    Source, Store, SureDisk, SureSink, SureSource, SureStore, Tag, put_all, read_all,
};

// Pairs of which two have the same key.
fn held(alloc: Global) -> Result<Vec<(Text, Text)>, Fail> {
    let mut pairs = Vec::new(alloc);
    for (key, content) in [("a", "first"), ("b", ""), ("a", "last")] {
        let key = Text::copy_of(alloc, key.as_bytes())?;
        pairs.push((key, Text::copy_of(alloc, content.as_bytes())?))?;
    }
    Ok(pairs)
}

fn store_of(alloc: Global, fail: &[u64]) -> Result<MemStore, Fail> {
    Ok(MemStore::new(alloc, held(alloc)?, Vec::from_slice(alloc, fail)?))
}

// An offset in the file with the key `a`, the number of bytes that are read there, and the buffer of three bytes.
const READINGS: &[(u64, usize, [u8; 3])] = &[
    (0, 3, *b"fir"),
    (2, 3, *b"rst"),
    (4, 1, *b"t--"),
    (5, 0, *b"---"),
    (u64::MAX, 0, *b"---"),
];

fn begins<S: Store>(store: &mut S, key: &[u8], size: u64) -> bool {
    store.begin(key) == Ok(size)
}

fn reads<S: Store>(store: &mut S, at: u64, count: usize, want: [u8; 3]) -> Result<bool, Failed> {
    let mut buf = *b"---";
    let size = store.begin(b"a")?;
    let found = store.read_at(at, &mut buf)?;
    Ok(size == 5 && found == count && buf == want)
}

fn assert_store<S: Store>(rt: &impl Abort, store: &mut S) -> Result<(), Failed> {
    for (at, count, want) in READINGS {
        assert!(rt; reads(store, *at, *count, *want)?, "at {at}");
    }
    assert!(rt; begins(store, b"b", 0));
    Ok(())
}

fn begin_fails<S: Store>(store: &mut S, key: &[u8]) -> bool {
    store.begin(key).is_err()
}

#[test]
fn stores_give_what_they_hold(rt: HostRuntime) -> Result<(), Fail> {
    let alloc = rt.alloc();
    let mut sure = SureStore::new(held(alloc)?);
    assert_store(&rt, &mut sure)?;
    assert_eq!(rt; sure.begun(), 6);
    assert!(rt; begin_fails(&mut sure, b"c"));
    let mut store = store_of(alloc, &[])?;
    assert_store(&rt, &mut store)?;
    assert_eq!(rt; store.begun(), 6);
    assert!(rt; begin_fails(&mut store, b"c"));
    Ok(())
}

// Opens the file of the key, and reads twice from its start.
fn read_twice<S: Store>(store: &mut S) -> Result<(bool, bool), Failed> {
    let mut buf = [0; 9];
    let _ = store.begin(b"a")?;
    let first = store.read_at(0, &mut buf).is_ok();
    let second = store.read_at(0, &mut buf).is_ok();
    Ok((first, second))
}

#[test]
fn a_store_fails_on_demand(rt: HostRuntime) -> Result<(), Fail> {
    let mut store = store_of(rt.alloc(), &[0, 2, 6])?;
    assert_eq!(rt; read_twice(&mut store), Err(Failed));
    assert_eq!(rt; read_twice(&mut store), Ok((false, true)));
    assert_eq!(rt; read_twice(&mut store), Ok((true, false)));
    assert_eq!(rt; read_twice(&mut store), Ok((true, true)));
    Ok(())
}

fn replace<D: Disk>(disk: &mut D, tag: Tag, slot: Slot, bytes: &[u8]) -> Result<(), Failed> {
    disk.create(tag, slot)?;
    disk.append(tag, slot, bytes)?;
    disk.sync(tag, slot)?;
    disk.publish(tag, slot)?;
    disk.settle(slot)
}

// Whether the slot's file has these bytes, or is missing if `want` is None.
fn has<D: Disk>(alloc: Global, disk: &mut D, slot: Slot, want: Option<&[u8]>) -> bool {
    match (disk.read(alloc, slot), want) {
        (Ok(Some(found)), Some(want)) => found.as_slice() == want,
        (Ok(None), None) => true,
        _ => false,
    }
}

fn assert_disk<D: Disk>(rt: &impl Abort, alloc: Global, disk: &mut D) -> Result<(), Fail> {
    for slot in [Slot::Manifest, Slot::Cache, Slot::Aux] {
        assert!(rt; has(alloc, disk, slot, None), "{slot:?}");
        replace(disk, Tag(1), slot, b"first")?;
        assert!(rt; has(alloc, disk, slot, Some(b"first")), "{slot:?}");
        replace(disk, Tag(2), slot, b"second")?;
        assert!(rt; has(alloc, disk, slot, Some(b"second")), "{slot:?}");
    }
    assert!(rt; has(alloc, disk, Slot::Manifest, Some(b"second")));
    Ok(())
}

// A disk with this cache file, whose calls with these numbers fail.
fn disk_of(alloc: Global, cache: Option<&[u8]>, fail: &[u64]) -> Result<MemDisk, Fail> {
    let cache = match cache {
        Some(bytes) => Some(Vec::from_slice(alloc, bytes)?),
        None => None,
    };
    let fail = Vec::from_slice(alloc, fail)?;
    Ok(MemDisk::new(alloc, None, cache, None, fail))
}

const SETTLED: DoneCall = DoneCall {
    tag: Tag(0),
    slot: Slot::Aux,
    call: Call::Settle,
};

#[test]
fn disks_keep_what_is_published(rt: HostRuntime) -> Result<(), Fail> {
    let alloc = rt.alloc();
    let mut sure = SureDisk::new(alloc, None, None, None);
    assert_disk(&rt, alloc, &mut sure)?;
    let mut disk = disk_of(alloc, None, &[])?;
    assert_disk(&rt, alloc, &mut disk)?;
    assert_eq!(rt; disk.calls().len(), 30);
    assert!(rt; disk.calls().last() == Some(&SETTLED));
    Ok(())
}

// The fault of reading the cache file.
fn reading_fault(alloc: Global, disk: &mut MemDisk) -> Option<DiskRead> {
    disk.read(alloc, Slot::Cache).err()
}

// Whether replacing the cache file fails.
fn replacing_fails(disk: &mut MemDisk, tag: Tag, bytes: &[u8]) -> bool {
    replace(disk, tag, Slot::Cache, bytes).is_err()
}

// Call 0 reads, and calls 1 to 5 replace.
#[test]
fn each_call_of_a_disk_fails_on_demand(rt: HostRuntime) -> Result<(), Fail> {
    let alloc = rt.alloc();
    for call in 0..6 {
        let mut disk = disk_of(alloc, Some(b"old"), &[call])?;
        assert!(rt; reading_fault(alloc, &mut disk).is_some() == (call == 0));
        let failed = replacing_fails(&mut disk, Tag(3), b"new");
        assert!(rt; failed == (call > 0), "call {call}");
        let made = if call == 0 { 5 } else { call - 1 };
        assert!(rt; disk.calls().len() as u64 == made, "call {call}");
        let want = if made < 4 { b"old" } else { b"new" };
        assert!(rt;
            has(alloc, &mut disk, Slot::Cache, Some(want)),
            "call {call}"
        );
    }
    Ok(())
}

#[test]
fn a_disk_stops(rt: HostRuntime) -> Result<(), Fail> {
    let alloc = rt.alloc();
    let mut disk = disk_of(alloc, None, &[])?;
    disk.stop_after(5);
    assert!(rt; has(alloc, &mut disk, Slot::Cache, None));
    replace(&mut disk, Tag(0), Slot::Cache, b"new")?;
    assert!(rt; matches!(reading_fault(alloc, &mut disk), Some(DiskRead::Failed)));
    assert!(rt; replacing_fails(&mut disk, Tag(0), b"newer"));
    disk.stop_after(1);
    assert!(rt; has(alloc, &mut disk, Slot::Cache, Some(b"new")));
    Ok(())
}

// Renames a cache file with these bytes into place, without flushing the directory.
fn publish<D: Disk>(disk: &mut D, bytes: &[u8]) -> Result<(), Failed> {
    disk.create(Tag(1), Slot::Cache)?;
    disk.append(Tag(1), Slot::Cache, bytes)?;
    disk.sync(Tag(1), Slot::Cache)?;
    disk.publish(Tag(1), Slot::Cache)
}

// The cache file of each image, depending on whether unflushed changes count as done. The other files are missing.
fn assert_images(
    rt: &impl Abort,
    alloc: Global,
    disk: &MemDisk,
    undone: &[u8],
    done: &[u8],
) -> Result<(), Fail> {
    for choice in 0u8..8 {
        let mut image = disk.image(alloc, choice)?;
        let want = if choice & 2 == 0 { undone } else { done };
        assert!(rt; image.calls().is_empty(), "choice {choice}");
        assert!(rt;
            has(alloc, &mut image, Slot::Cache, Some(want)),
            "choice {choice}"
        );
        assert!(rt; has(alloc, &mut image, Slot::Manifest, None));
        assert!(rt; has(alloc, &mut image, Slot::Aux, None));
    }
    Ok(())
}

#[test]
fn an_image_has_what_a_crash_leaves(rt: HostRuntime) -> Result<(), Fail> {
    let alloc = rt.alloc();
    let mut disk = disk_of(alloc, Some(b"old"), &[])?;
    assert_images(&rt, alloc, &disk, b"old", b"old")?;
    publish(&mut disk, b"new")?;
    assert_images(&rt, alloc, &disk, b"old", b"new")?;
    publish(&mut disk, b"newer")?;
    assert_images(&rt, alloc, &disk, b"old", b"newer")?;
    disk.settle(Slot::Aux)?;
    assert_images(&rt, alloc, &disk, b"old", b"newer")?;
    disk.settle(Slot::Cache)?;
    assert_images(&rt, alloc, &disk, b"newer", b"newer")?;
    Ok(())
}

// An image is a disk like any other.
#[test]
fn an_image_is_written(rt: HostRuntime) -> Result<(), Fail> {
    let alloc = rt.alloc();
    let mut disk = disk_of(alloc, Some(b"old"), &[1])?;
    assert!(rt; reading_fault(alloc, &mut disk).is_none());
    assert!(rt; replacing_fails(&mut disk, Tag(3), b"new"));
    let mut image = disk.image(alloc, 7)?;
    replace(&mut image, Tag(3), Slot::Cache, b"new")?;
    assert_images(&rt, alloc, &image, b"new", b"new")
}

// The results of reading `abcde` from a source, three bytes at a time: the count, and the buffer.
const PARTS: &[(usize, [u8; 3])] = &[(3, *b"abc"), (2, *b"de-"), (0, *b"---"), (0, *b"---")];

fn gives<I: Source>(source: &mut I, count: usize, want: [u8; 3]) -> bool {
    let mut buf = *b"---";
    source.read(&mut buf) == Ok(count) && buf == want
}

fn assert_source<I: Source>(rt: &impl Abort, source: &mut I) {
    for (count, want) in PARTS {
        assert!(rt; gives(source, *count, *want));
    }
}

fn source_of(alloc: Global, bytes: &[u8], fail: &[u64]) -> Result<MemSource, Fail> {
    let bytes = Vec::from_slice(alloc, bytes)?;
    Ok(MemSource::new(bytes, Vec::from_slice(alloc, fail)?))
}

fn read_one<I: Source>(source: &mut I) -> Result<usize, Failed> {
    source.read(&mut [0; 1])
}

#[test]
fn sources_give_their_bytes(rt: HostRuntime) -> Result<(), Fail> {
    let alloc = rt.alloc();
    assert_source(&rt, &mut SureSource::new(Vec::from_slice(alloc, b"abcde")?));
    let mut source = source_of(alloc, b"-abcde", &[0, 2])?;
    assert!(rt; read_one(&mut source) == Err(Failed));
    assert!(rt; read_one(&mut source) == Ok(1));
    assert!(rt; read_one(&mut source) == Err(Failed));
    assert_source(&rt, &mut source);
    Ok(())
}

// `size` bytes, each of which is its offset modulo 251.
fn counted(alloc: Global, size: usize) -> Result<Vec<u8>, Fail> {
    let mut bytes = Vec::new(alloc);
    for i in 0..size {
        bytes.push((i % 251) as u8)?;
    }
    Ok(bytes)
}

// Sizes around that of the pieces in which an input is read.
const SIZES: &[usize] = &[0, 1, 4095, 4096, 4097, 9000];

#[test]
fn an_input_is_read_to_its_end(rt: HostRuntime) -> Result<(), Fail> {
    let alloc = rt.alloc();
    for size in SIZES {
        let bytes = counted(alloc, *size)?;
        let mut source = source_of(alloc, bytes.as_slice(), &[])?;
        let found = read_all(alloc, &mut source, *size);
        assert!(rt; found.is_ok_and(|found| found == bytes), "of {size}");
        assert_eq!(rt; read_one(&mut source).unwrap_or(9), 0);
    }
    Ok(())
}

#[test]
fn an_input_that_is_too_long_is_refused(rt: HostRuntime) -> Result<(), Fail> {
    let alloc = rt.alloc();
    for size in SIZES {
        let bytes = counted(alloc, *size + 2)?;
        let mut source = source_of(alloc, bytes.as_slice(), &[])?;
        let taken = *size as u64 + 1;
        let fault = read_all(alloc, &mut source, *size).err();
        assert!(rt; fault == Some(ReadFault::TooLong { taken }), "past {size}");
        assert_eq!(rt; read_one(&mut source).unwrap_or(9), 1);
    }
    Ok(())
}

#[test]
fn an_input_fails_at_each_reading(rt: HostRuntime) -> Result<(), Fail> {
    let alloc = rt.alloc();
    for call in [0, 1, 2, 3] {
        let bytes = counted(alloc, 9000)?;
        let mut source = source_of(alloc, bytes.as_slice(), &[call])?;
        let fault = read_all(alloc, &mut source, 1 << 20).err();
        assert!(rt; fault == Some(ReadFault::InputFault), "call {call}");
    }
    Ok(())
}

fn puts<O: Sink>(sink: &mut O, bytes: &[u8]) -> bool {
    put_all(sink, bytes).is_ok()
}

fn sink_of(alloc: Global, fail: &[u64]) -> Result<MemSink, Fail> {
    Ok(MemSink::new(alloc, Vec::from_slice(alloc, fail)?))
}

#[test]
fn sinks_take_all(rt: HostRuntime) -> Result<(), Fail> {
    let alloc = rt.alloc();
    let mut sure = SureSink::new(alloc);
    for bytes in [b"".as_slice(), b"abc", b"de"] {
        assert!(rt; puts(&mut sure, bytes));
    }
    assert!(rt; sure.written() == b"abcde".as_slice());
    let mut sink = sink_of(alloc, &[0, 2])?;
    for bytes in [b"lost".as_slice(), b"abc", b"lost", b"de"] {
        let _ = puts(&mut sink, bytes);
    }
    assert!(rt; sink.written() == b"abcde".as_slice());
    Ok(())
}
