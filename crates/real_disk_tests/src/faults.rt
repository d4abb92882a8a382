//! Each call of the system fails in turn.
use crate::host::{SLOTS, content_of, disk_of, file_of, make_dirs, make_image, temporaries};
use crate::replacing::{ALL, Job, replace};
use std::{fs, io};
use tree_face::{Disk, Slot, Tag};
use trial_devices::{Manner, Report, SystemCall, Trial};

// Two contents that begin like a cache.
const OLD: &[u8] = b"glibc-ld.so.cache1.1\0\0\0\0, old";

const NEW: &[u8] = b"glibc-ld.so.cache1.1\0\0\0\0new";

// More calls of the system than a reading or a replacement makes.
const MOST: u64 = 200;

// Replacements of a slot, and whether its file is there.
const CASES: &[(Slot, bool)] = &[
    (Slot::Manifest, true),
    (Slot::Cache, true),
    (Slot::Aux, true),
    (Slot::Cache, false),
    (Slot::Aux, false),
];

// Makes the image with the old files, or without files.
fn put_old(rt: &HostRuntime, is_there: bool) -> io::Result<()> {
    make_image(rt)?;
    if is_there {
        make_dirs(rt)?;
        for slot in SLOTS {
            fs::write(rt, file_of(slot), OLD)?;
        }
    }
    Ok(())
}

/// Reads each slot byte by byte, with each call of the system failing in turn.
pub fn try_read_faults(rt: &HostRuntime, trial: &Trial, report: &mut Report<'_>) -> io::Result<()> {
    report.begin("failing calls while a slot is read");
    put_old(rt, true)?;
    trial.plan().move_in(Manner::of(3));
    for slot in SLOTS {
        read_failing(rt, trial, slot, report)?;
    }
    trial.plan().move_in(Manner::WHOLE);
    report.end(SLOTS.len() as u64)
}

// Reads a slot with each call failing in turn, until none is left.
fn read_failing(
    rt: &HostRuntime,
    trial: &Trial,
    slot: Slot,
    report: &mut Report<'_>,
) -> io::Result<()> {
    for calls in 0..MOST {
        report.go_to(calls);
        if !try_reading(rt, trial, slot, calls, report)? {
            report.expect(calls > 0, "makes no call");
            return Ok(());
        }
    }
    report.expect(false, "makes too many calls");
    Ok(())
}

// The call with this number fails. Then the slot is read again. Returns whether there is such a call.
fn try_reading(
    rt: &HostRuntime,
    trial: &Trial,
    slot: Slot,
    calls: u64,
    report: &mut Report<'_>,
) -> io::Result<bool> {
    let mut real = disk_of(trial)?;
    let plan = trial.plan();
    plan.fail_after(calls);
    let is_whole = reads_old(rt, &mut real, slot);
    let failed = plan.end_failing().is_some();
    report.expect(is_whole != failed, "hides an error");
    report.expect(
        plan.take_lines() == u64::from(failed),
        "not one line for its error",
    );
    report.expect(reads_old(rt, &mut real, slot), "fails after an error");
    Ok(failed)
}

fn reads_old<D: Disk>(rt: &HostRuntime, disk: &mut D, slot: Slot) -> bool {
    match disk.read(rt.alloc(), slot) {
        Ok(Some(content)) => content.as_slice() == OLD,
        _ => false,
    }
}

/// Replaces each slot, byte by byte, with each call of the system failing in turn.
pub fn try_write_faults(
    rt: &HostRuntime,
    trial: &Trial,
    report: &mut Report<'_>,
) -> io::Result<()> {
    report.begin("failing calls while a slot is replaced");
    trial.plan().move_in(Manner::of(3));
    for case in CASES {
        write_failing(rt, trial, *case, report)?;
    }
    trial.plan().move_in(Manner::WHOLE);
    report.end(CASES.len() as u64)
}

// Replaces a slot with each call failing in turn, until none is left.
fn write_failing(
    rt: &HostRuntime,
    trial: &Trial,
    case: (Slot, bool),
    report: &mut Report<'_>,
) -> io::Result<()> {
    let (slot, is_there) = case;
    for calls in 0..MOST {
        report.go_to(calls);
        put_old(rt, is_there)?;
        if !try_writing(rt, trial, slot, calls, report)? {
            report.expect(calls > 0, "makes no call");
            return Ok(());
        }
    }
    report.expect(false, "makes too many calls");
    Ok(())
}

// The call with this number fails. Then the slot is replaced again. Returns whether there is such a call.
fn try_writing(
    rt: &HostRuntime,
    trial: &Trial,
    slot: Slot,
    calls: u64,
    report: &mut Report<'_>,
) -> io::Result<bool> {
    let job = Job {
        tag: Tag(0),
        slot,
        calls: ALL,
    };
    let before = content_of(rt, slot);
    let mut real = disk_of(trial)?;
    let plan = trial.plan();
    plan.fail_after(calls);
    let done = replace(&mut real, job, NEW).is_ok();
    let failed = plan.end_failing();
    expect_reported(done, failed, report);
    report.expect(
        plan.take_lines() == u64::from(!done),
        "not one line for its error",
    );
    let after = content_of(rt, slot);
    report.expect(
        is_new(&after) || (!done && after == before),
        "another content",
    );
    report.expect(temporaries(rt) == 0, "leaves a temporary file");
    report.expect(replace(&mut real, job, NEW).is_ok(), "fails after an error");
    report.expect(
        is_new(&content_of(rt, slot)),
        "another content after an error",
    );
    let _ = plan.take_flushes();
    Ok(failed.is_some())
}

fn is_new(content: &Option<Vec<u8>>) -> bool {
    match content {
        Some(content) => content.as_slice() == NEW,
        None => false,
    }
}

// A replacement fails only if a call failed. If a call failed that changes something, it fails.
fn expect_reported(done: bool, failed: Option<SystemCall>, report: &mut Report<'_>) {
    let Some(call) = failed else {
        report.expect(done, "fails without a cause");
        return;
    };
    let is_needed = match call {
        SystemCall::Write | SystemCall::Sync | SystemCall::Rename => true,
        SystemCall::Make | SystemCall::Change => true,
        _ => false,
    };
    report.expect(!done || !is_needed, "hides an error");
}
