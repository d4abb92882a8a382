//! The output and the status of `lookup`.
use crate::run::{assert_faults, assert_run, disk_with};
use cache_reader::CacheDefect;
use command_runs::Status;
use command_runs_fixture::{EMPTY_CACHE, ONE_CACHE, ONE_SEPARATE, Setting, THREE_CACHE};
use std::alloc::Global;
use std::test::Fail;

const LIBZ: &[&str] = &["lookup", "libz.so.1"];

#[test]
fn names_are_looked_up(rt: HostRuntime) -> Result<(), Fail> {
    let alloc = rt.alloc();
    let disk = disk_with(Some(ONE_CACHE));
    let path = b"/usr/lib/libz.so.1\n";
    assert_run(&rt, alloc, disk, LIBZ, Status::Done, path)?;
    let separate = disk_with(Some(ONE_SEPARATE));
    assert_run(&rt, alloc, separate, LIBZ, Status::Done, path)?;
    for arguments in [
        ["lookup", "libz.so.2", "--abi", "x86-64"],
        ["lookup", "libz.so.1", "--abi", "aarch64"],
        ["lookup", "libz.so.1", "--abi", "arm-hf"],
        ["lookup", "libz.so.1", "--abi", "riscv64-d"],
    ] {
        assert_run(
            &rt,
            alloc,
            disk,
            &arguments,
            Status::Missing,
            b"not found\n",
        )?;
    }
    let empty = disk_with(Some(EMPTY_CACHE));
    assert_run(&rt, alloc, empty, LIBZ, Status::Missing, b"not found\n")
}

// The cache of three libraries with its last two entries exchanged.
fn exchanged(alloc: Global) -> Result<Vec<u8>, Fail> {
    let mut cache = Vec::from_slice(alloc, THREE_CACHE)?;
    for at in 72..96usize {
        if at + 24 < cache.len() {
            cache.as_mut_slice().swap(at, at + 24);
        }
    }
    Ok(cache)
}

#[test]
fn names_that_rise_are_refused(rt: HostRuntime) -> Result<(), Fail> {
    let alloc = rt.alloc();
    let cache = exchanged(alloc)?;
    let unsorted = Status::BadCache(CacheDefect::Unsorted { entry: 2 });
    let line = b"fault: BadCache: Unsorted 2\n";
    assert_run(&rt, alloc, disk_with(Some(&cache)), LIBZ, unsorted, line)
}

#[test]
fn files_without_a_cache_are_refused(rt: HostRuntime) -> Result<(), Fail> {
    let alloc = rt.alloc();
    let none = disk_with(None);
    assert_run(&rt, alloc, none, LIBZ, Status::NoCache, b"fault: NoCache\n")?;
    let cut = disk_with(Some(&ONE_CACHE[..157]));
    let status = Status::BadCache(CacheDefect::BadExtension { offset: 92 });
    let line = b"fault: BadCache: BadExtension 92\n";
    assert_run(&rt, alloc, cut, LIBZ, status, line)
}

// The path is written in two calls.
#[test]
fn devices_that_fail(rt: HostRuntime) -> Result<(), Fail> {
    let alloc = rt.alloc();
    assert_faults(&rt, alloc, LIBZ)?;
    let end_fails = Setting {
        out_fails: Some(1),
        ..disk_with(Some(ONE_CACHE))
    };
    let path = b"/usr/lib/libz.so.1";
    assert_run(&rt, alloc, end_fails, LIBZ, Status::OutputFault, path)
}

const OTHER: &[&[&str]] = &[
    &["lookup"],
    &["lookup", "-"],
    &["lookup", "--abi", "i386"],
    &["lookup", "libz.so.1", "libz.so.1"],
    &["lookup", "libz.so.1", "--abi"],
    &["lookup", "libz.so.1", "--abi", "i686"],
    &["lookup", "libz.so.1", "--caps"],
    &["lookup", "libz.so.1", "--caps", "-"],
    &["lookup", "libz.so.1", "--abi", "i386", "--abi", "i386"],
    &["lookups", "libz.so.1"],
];

#[test]
fn other_arguments_are_no_lookup(rt: HostRuntime) -> Result<(), Fail> {
    let disk = disk_with(Some(ONE_CACHE));
    let line = b"fault: Usage\n";
    for arguments in OTHER {
        assert_run(&rt, rt.alloc(), disk, *arguments, Status::Usage, line)?;
    }
    Ok(())
}
