//! Random sequences of calls on both disks.
use crate::host::{SLOTS, content_of, disk_of, make_image, temporaries};
use crate::replacing::{ALL, Job, RENAMED, flushes_after, replace};
use crate::texts::{shown, text_of};
use std::alloc::Global;
use std::io;
use tree_face::{Disk, DiskRead, MemDisk, Slot, Tag};
use trial_devices::{Manner, Random, Report, Trial};

const ROUNDS: u64 = 60;

const TURNS: u64 = 20;

/// Makes the same calls on the disk over the directory and on a disk in memory, in each manner of moving bytes.
pub fn try_turns(rt: &HostRuntime, trial: &Trial, report: &mut Report<'_>) -> io::Result<()> {
    report.begin("sequences of calls");
    for round in 0..ROUNDS {
        report.go_to(round);
        trial.plan().move_in(Manner::of(round));
        try_round(rt, trial, round, report)?;
    }
    trial.plan().move_in(Manner::WHOLE);
    report.end(ROUNDS)
}

fn try_round(
    rt: &HostRuntime,
    trial: &Trial,
    seed: u64,
    report: &mut Report<'_>,
) -> io::Result<()> {
    make_image(rt)?;
    let mut real = disk_of(trial)?;
    let mut model = MemDisk::new(rt.alloc(), None, None, None, Vec::new(rt.alloc()));
    make_turns(rt, trial, &mut real, &mut model, seed, report)
}

fn make_turns<A: Disk, B: Disk>(
    rt: &HostRuntime,
    trial: &Trial,
    real: &mut A,
    model: &mut B,
    seed: u64,
    report: &mut Report<'_>,
) -> io::Result<()> {
    let mut random = Random::new(seed);
    for _turn in 0..TURNS {
        if random.once_in(3) {
            compare_read(rt.alloc(), real, model, slot_of(&mut random), report);
        } else {
            replace_both(rt, trial, real, model, &mut random, report)?;
        }
        report.expect(trial.plan().take_lines() == 0, "a line without an error");
        compare_files(rt, model, report);
    }
    Ok(())
}

fn slot_of(random: &mut Random) -> Slot {
    SLOTS[random.below(SLOTS.len())]
}

// Makes the same replacement on both disks.
fn replace_both<A: Disk, B: Disk>(
    rt: &HostRuntime,
    trial: &Trial,
    real: &mut A,
    model: &mut B,
    random: &mut Random,
    report: &mut Report<'_>,
) -> io::Result<()> {
    let text = text_of(rt.alloc(), random)?;
    let job = job_of(random);
    report.expect(
        replace(real, job, &text) == replace(model, job, &text),
        "replace: another result",
    );
    compare_calls(rt, trial, job, report)
}

// A replacement. Every second one is whole.
fn job_of(random: &mut Random) -> Job {
    let slot = slot_of(random);
    let tag = Tag(random.below(3) as u16);
    let calls = if random.once_in(2) {
        ALL
    } else {
        random.below(ALL) + 1
    };
    Job { tag, slot, calls }
}

// The flushes of the replacement, and the temporary file that it leaves.
fn compare_calls(
    rt: &HostRuntime,
    trial: &Trial,
    job: Job,
    report: &mut Report<'_>,
) -> io::Result<()> {
    let flushes = flushes_after(rt, job)?;
    report.expect(
        trial.plan().take_flushes() == flushes,
        "replace: other flushes",
    );
    let left = u64::from(job.calls < RENAMED);
    report.expect(temporaries(rt) == left, "replace: other temporary files");
    Ok(())
}

// Reads a slot of both disks.
fn compare_read<A: Disk, B: Disk>(
    alloc: Global,
    real: &mut A,
    model: &mut B,
    slot: Slot,
    report: &mut Report<'_>,
) {
    let found = real.read(alloc, slot);
    let expected = model.read(alloc, slot);
    report.expect(are_same(slot, &found, &expected), "read: another result");
}

fn are_same(
    slot: Slot,
    found: &Result<Option<Vec<u8>>, DiskRead>,
    expected: &Result<Option<Vec<u8>>, DiskRead>,
) -> bool {
    match (found, expected) {
        (Ok(Some(found)), Ok(Some(expected))) => found.as_slice() == shown(slot, expected),
        (Ok(None), Ok(None)) => true,
        _ => false,
    }
}

// What the system shows of the slots' files is what the disk in memory has.
fn compare_files<D: Disk>(rt: &HostRuntime, model: &mut D, report: &mut Report<'_>) {
    for slot in SLOTS {
        let found = content_of(rt, slot);
        let expected = model.read(rt.alloc(), slot);
        report.expect(is_content(&found, &expected), "another file on the disk");
    }
}

fn is_content(found: &Option<Vec<u8>>, expected: &Result<Option<Vec<u8>>, DiskRead>) -> bool {
    match (found, expected) {
        (Some(found), Ok(Some(expected))) => found.as_slice() == expected.as_slice(),
        (None, Ok(None)) => true,
        _ => false,
    }
}
