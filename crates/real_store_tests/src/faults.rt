//! Each call of the system fails in turn.
ghost use Rattle.std.specs.Prelude.{IsSome};

use crate::image::{ROOT, content};
use crate::turns::no_memory;
use std::io;
use tree_face::Store;
use tree_real::FolderStore;
use trial_devices::{Manner, Report, Trial};

// A file in a directory of depth four, and its length.
const KEY: &[u8] = b"usr/lib/a/deep/libc.so.6";

const LENGTH: usize = 4095;

// More calls than opening this file takes: four for the image's directory, three for each other one and for the file.
const OPENING: u64 = 24;

// The number of bytes that are read one by one.
const PIECE: usize = 30;

/// Opens and reads a file with each call of the system failing in turn.
pub fn try_faults(rt: &HostRuntime, trial: &Trial, report: &mut Report<'_>) -> io::Result<()> {
    trial.plan().move_in(Manner::WHOLE);
    report.begin("failing calls while a file is opened");
    for calls in 0..OPENING {
        report.go_to(calls);
        try_opening(rt, trial, calls, report)?;
    }
    report.end(OPENING)?;
    trial.plan().move_in(Manner::of(3));
    report.begin("failing calls while a file is read");
    for calls in 0..PIECE as u64 {
        report.go_to(calls);
        try_reading(rt, trial, calls, report)?;
    }
    report.end(PIECE as u64)
}

// The call with this number fails while the file is opened. After that it can be opened.
fn try_opening(
    rt: &HostRuntime,
    trial: &Trial,
    calls: u64,
    report: &mut Report<'_>,
) -> io::Result<()> {
    let plan = trial.plan();
    let mut real = store_of(trial)?;
    plan.fail_after(calls);
    let opened = real.begin(KEY);
    let failed = plan.end_failing().is_some();
    report.expect(opened.is_err() == failed, "begin: hides an error");
    report.expect(
        plan.take_lines() == u64::from(failed),
        "begin: not one line for its error",
    );
    report.expect(failed || calls > 0, "begin: makes no call");
    report.expect(
        !failed || calls < OPENING - 1,
        "begin: makes too many calls",
    );
    let again = real.begin(KEY);
    report.expect(again == Ok(LENGTH as u64), "begin: fails after an error");
    report.expect(real.begun() == 2, "begin: not counted");
    if again.is_ok() {
        read_start(rt, &mut real, report)?;
    }
    Ok(())
}

// The call with this number fails while the file is read, and then it is read again.
fn try_reading(
    rt: &HostRuntime,
    trial: &Trial,
    calls: u64,
    report: &mut Report<'_>,
) -> io::Result<()> {
    let mut real = store_of(trial)?;
    let opened = real.begin(KEY);
    report.expect(opened == Ok(LENGTH as u64), "begin: fails");
    if opened.is_ok() {
        read_twice(rt, trial, calls, &mut real, report)?;
    }
    Ok(())
}

fn read_twice<S: Store>(
    rt: &HostRuntime,
    trial: &Trial,
    calls: u64,
    real: &mut S,
    report: &mut Report<'_>,
) -> io::Result<()>
    requires { IsSome (S.state real.old).size }
{
    let plan = trial.plan();
    let mut bytes = [0u8; PIECE];
    plan.fail_after(calls);
    let count = real.read_at(0, &mut bytes);
    report.expect(plan.end_failing().is_some(), "read_at: makes too few calls");
    report.expect(count.is_err(), "read_at: hides an error");
    report.expect(
        plan.take_lines() == 1,
        "read_at: not one line for its error",
    );
    read_start(rt, real, report)
}

// Reads the first bytes of the open file.
fn read_start<S: Store>(rt: &HostRuntime, real: &mut S, report: &mut Report<'_>) -> io::Result<()>
    requires { IsSome (S.state real.old).size }
{
    let mut bytes = [0u8; PIECE];
    let count = real.read_at(0, &mut bytes);
    report.expect(count == Ok(PIECE), "read_at: fails after an error");
    let wanted = content(rt.alloc(), LENGTH)?;
    report.expect(
        wanted.starts_with(&bytes),
        "read_at: other bytes after an error",
    );
    Ok(())
}

fn store_of(trial: &Trial) -> io::Result<FolderStore<Trial>> {
    FolderStore::new(trial.clone()?, ROOT).map_err(|_| no_memory())
}
