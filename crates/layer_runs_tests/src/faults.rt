//! Devices that fail at each of their calls.
use crate::stack::{Layer, SURE, devices_of, run};
use command_runs_fixture::{Devices, OLD, Setting, has};
use command_status::Status;
use std::alloc::Global;
use std::process::Abort;
use std::test::Fail;
use tree_face::Slot;

const LAYERS: &[Layer] = &[
    (
        "base",
        "./usr/lib/liba.so.1 type=file contents=a\n./usr/lib/libz.so.1 type=file contents=z\n",
    ),
    (
        "top",
        "./usr/lib/.wh.liba.so.1 type=file\n./usr/lib/libb.so.1 type=file contents=b\n",
    ),
];

const REPORT: &[u8] = b"2 libs, 0 links, 2 files opened\n";

// The run ends with this status and output, after this number of writing calls.
fn assert_ends(
    rt: &impl Abort,
    alloc: Global,
    devices: &mut Devices,
    want: Status,
    out: &[u8],
    calls: u64,
) -> Result<(), Fail> {
    let status = run(alloc, LAYERS, devices)?;
    assert!(rt; status == want, "after {calls}");
    assert!(rt; devices.out.written() == out, "after {calls}");
    assert!(rt; devices.disk.calls().len() as u64 == calls);
    Ok(())
}

// Five for the manifest, five for the cache, and five for the auxiliary cache.
const CALLS: u64 = 15;

#[test]
fn nothing_fails(rt: HostRuntime) -> Result<(), Fail> {
    let alloc = rt.alloc();
    let mut devices = devices_of(alloc, LAYERS, SURE)?;
    assert_ends(&rt, alloc, &mut devices, Status::Done, REPORT, CALLS)
}

// Each manifest is opened and read in one call each. Each of the two libraries is opened, and its header, program headers, dynamic entries
// and text are read in one call each.
const STORE_CALLS: u64 = 14;

#[test]
fn the_store_fails_at_each_key(rt: HostRuntime) -> Result<(), Fail> {
    let alloc = rt.alloc();
    for call in 0..STORE_CALLS {
        let setting = Setting {
            store_fails: Some(call),
            ..SURE
        };
        let mut devices = devices_of(alloc, LAYERS, setting)?;
        let out = b"fault: StoreFault\n";
        assert_ends(&rt, alloc, &mut devices, Status::StoreFault, out, 0)?;
        assert!(rt; has(alloc, &mut devices.disk, Slot::Cache, Some(OLD)));
    }
    let setting = Setting {
        store_fails: Some(STORE_CALLS),
        ..SURE
    };
    let mut devices = devices_of(alloc, LAYERS, setting)?;
    assert_ends(&rt, alloc, &mut devices, Status::Done, REPORT, CALLS)
}

// The auxiliary cache is read in one call before the writing calls.
#[test]
fn the_disk_fails(rt: HostRuntime) -> Result<(), Fail> {
    let alloc = rt.alloc();
    for call in 0..16 {
        let setting = Setting {
            disk_fails: Some(call),
            ..SURE
        };
        let mut devices = devices_of(alloc, LAYERS, setting)?;
        let out = b"fault: DiskFault\n";
        let calls = call.saturating_sub(1);
        assert_ends(&rt, alloc, &mut devices, Status::DiskFault, out, calls)?;
    }
    Ok(())
}

#[test]
fn the_sink_fails(rt: HostRuntime) -> Result<(), Fail> {
    let alloc = rt.alloc();
    let setting = Setting {
        out_fails: Some(0),
        ..SURE
    };
    let mut devices = devices_of(alloc, LAYERS, setting)?;
    assert_ends(&rt, alloc, &mut devices, Status::OutputFault, b"", CALLS)
}
