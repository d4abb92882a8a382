//! A sample of one library, on its own devices, and on a store in memory with and without a fault.
use command_status::Status;
use elf_samples::library_file;
use lib_types::{Abi, NoMemory, Text};
use sample_runs::{run_sample, sample_on};
use std::alloc::Global;
use std::test::Fail;
use tree_face::{MemStore, SureDisk, SureSink};

const TEXT: &str = "update 1: 1 libs, 1 links, 1 files opened, 162 bytes
update 2: 1 libs, 1 links, 1 files opened, 162 bytes
lookups: 1 found of 1
readings: 6 first, 1 tag 0, 3 tag 1
";

// A store with the one library, in which the calls with these numbers fail.
fn store_of(alloc: Global, fail: &[u64]) -> Result<MemStore, Fail> {
    let content = library_file(alloc, Abi::X86_64, b"libs0.so.18").map_err(|_| Fail::from(
        NoMemory,
    ))?;
    let mut pairs = Vec::new(alloc);
    pairs.push((Text::copy_of(alloc, b"s0")?, Text::from_vec(content)))?;
    Ok(MemStore::new(alloc, pairs, Vec::from_slice(alloc, fail)?))
}

fn disk_of(alloc: Global) -> Result<SureDisk, Fail> {
    let manifest = Vec::from_slice(alloc, b"#mtree\n")?;
    Ok(SureDisk::new(alloc, Some(manifest), None, None))
}

#[test]
fn own_devices(rt: HostRuntime) -> Result<(), Fail> {
    let alloc = rt.alloc();
    let mut out = SureSink::new(alloc);
    assert!(rt; run_sample(alloc, 1, &mut out) == Status::Done);
    assert!(rt; out.written() == TEXT.as_bytes());
    Ok(())
}

#[test]
fn no_fault(rt: HostRuntime) -> Result<(), Fail> {
    let alloc = rt.alloc();
    let (mut store, mut disk) = (store_of(alloc, &[])?, disk_of(alloc)?);
    let mut out = SureSink::new(alloc);
    assert!(rt; sample_on(alloc, 1, &mut store, &mut disk, &mut out) == Status::Done);
    assert!(rt; out.written() == TEXT.as_bytes());
    Ok(())
}

#[test]
fn first_call_fails(rt: HostRuntime) -> Result<(), Fail> {
    let alloc = rt.alloc();
    let (mut store, mut disk) = (store_of(alloc, &[0])?, disk_of(alloc)?);
    let mut out = SureSink::new(alloc);
    assert!(rt; sample_on(alloc, 1, &mut store, &mut disk, &mut out) == Status::StoreFault);
    assert!(rt; out.written().is_empty());
    Ok(())
}
