//! The store, the disk and the sink, failing at each of their calls.
use crate::script::{CALLS, UPDATES, devices_of, is_after, may_be_left, reports, sure, text_of};
use command_runs::Status;
use command_runs_fixture::{Devices, NarrowSink, Setting, run_into, run_script};
use command_words::Command;
use std::alloc::Global;
use std::process::Abort;
use std::test::Fail;
use tree_face::Tag;

// The script ends with this status after this number of updates, and has written their reports and a fault line.
fn assert_ends(
    rt: &impl Abort,
    alloc: Global,
    devices: &mut Devices,
    want: Status,
    updates: u64,
    fault: &str,
) -> Result<(), Fail> {
    let status = run_script(alloc, devices);
    assert!(rt; status == want, "after {updates}");
    let text = text_of(alloc, updates, fault)?;
    assert!(rt; devices.out.written() == text.as_slice(), "after {updates}");
    Ok(())
}

// The files are those after this number of updates, and the disk made only the writing calls of these updates.
fn assert_after(
    rt: &impl Abort,
    alloc: Global,
    devices: &mut Devices,
    updates: u64,
) -> Result<(), Fail> {
    let calls = devices.disk.calls().len() as u64;
    assert!(rt; calls == updates.saturating_mul(CALLS), "after {updates}");
    assert!(rt;
        is_after(alloc, &mut devices.disk, updates),
        "after {updates}"
    );
    Ok(())
}

#[test]
fn nothing_fails(rt: HostRuntime) -> Result<(), Fail> {
    let alloc = rt.alloc();
    let mut devices = devices_of(alloc, sure())?;
    assert_ends(&rt, alloc, &mut devices, Status::Done, UPDATES, "")?;
    assert_after(&rt, alloc, &mut devices, UPDATES)
}

// Each update opens one file, and reads its header, program headers, dynamic entries and text in one call each.
const STORE_CALLS: u64 = 5;

#[test]
fn the_store_fails(rt: HostRuntime) -> Result<(), Fail> {
    let alloc = rt.alloc();
    for call in 0..STORE_CALLS.saturating_mul(UPDATES) {
        let setting = Setting {
            store_fails: Some(call),
            ..sure()
        };
        let mut devices = devices_of(alloc, setting)?;
        let done = call / STORE_CALLS;
        let fault = "fault: StoreFault\n";
        assert_ends(&rt, alloc, &mut devices, Status::StoreFault, done, fault)?;
        assert_after(&rt, alloc, &mut devices, done)?;
    }
    Ok(())
}

// The number of disk calls that read a file. They come before the writing calls.
const READS: u64 = 2;

#[test]
fn the_disk_fails(rt: HostRuntime) -> Result<(), Fail> {
    let alloc = rt.alloc();
    for call in 0..CALLS.saturating_mul(UPDATES).saturating_add(READS) {
        let setting = Setting {
            disk_fails: Some(call),
            ..sure()
        };
        let mut devices = devices_of(alloc, setting)?;
        let made = call.saturating_sub(READS);
        let fault = "fault: DiskFault\n";
        assert_ends(
            &rt,
            alloc,
            &mut devices,
            Status::DiskFault,
            made / CALLS,
            fault,
        )?;
        assert!(rt; devices.disk.calls().len() as u64 == made, "call {call}");
        assert!(rt; may_be_left(alloc, &mut devices.disk, made), "call {call}");
    }
    Ok(())
}

// Each report is one call of the sink. If it isn't written, no fault line follows.
#[test]
fn the_sink_fails(rt: HostRuntime) -> Result<(), Fail> {
    let alloc = rt.alloc();
    for call in 0..UPDATES {
        let setting = Setting {
            out_fails: Some(call),
            ..sure()
        };
        let mut devices = devices_of(alloc, setting)?;
        assert_ends(&rt, alloc, &mut devices, Status::OutputFault, call, "")?;
        assert_after(&rt, alloc, &mut devices, call.saturating_add(1))?;
    }
    Ok(())
}

// The first report has 32 bytes, of which a sink takes seven per call.
const FIRST_CALLS: u64 = 5;

// The number of bytes that are written before this call of a sink that takes seven, and the number of updates that are made then.
fn written_before(call: u64) -> (u64, u64) {
    if call < FIRST_CALLS {
        (call.saturating_mul(7), 1)
    } else {
        (
            call.saturating_sub(FIRST_CALLS)
                .saturating_mul(7)
                .saturating_add(32),
            2,
        )
    }
}

const BATCH: Command = Command::Batch { tag: Tag(0) };

// The second report has 70 bytes, which are ten calls.
#[test]
fn a_sink_takes_parts(rt: HostRuntime) -> Result<(), Fail> {
    let alloc = rt.alloc();
    for call in 0..FIRST_CALLS.saturating_add(10) {
        let mut devices = devices_of(alloc, sure())?;
        let mut out = NarrowSink::new(alloc, call)?;
        let status = run_into(alloc, BATCH, &mut devices, &mut out);
        let (size, updates) = written_before(call);
        assert!(rt; status == Status::OutputFault, "call {call}");
        assert!(rt; out.written().len() as u64 == size, "call {call}");
        assert!(rt; reports(UPDATES).starts_with(out.written()), "call {call}");
        assert_after(&rt, alloc, &mut devices, updates)?;
    }
    Ok(())
}
