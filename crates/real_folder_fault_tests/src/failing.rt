//! Each call of the system fails in turn.
use crate::steps::{Case, MOST, STEPS, case_of, expect_new, expect_old_or_new, lines_of, undo};
use real_folder_fixture::{Answer, IMAGE, Step, is_same_answer, real_folder};
use root_folder::Folder;
use std::io;
use tree_face::Tag;
use trial_devices::{Manner, Report, Trial};

// EIO, which no device handles in a special way.
const IO_ERROR: i32 = 5;

// ENOMEM.
const NO_MEMORY: i32 = 12;

// Errors that may be handled in a special way: ENOENT, EINTR, ENOMEM, EACCES, EEXIST and ENOTDIR.
const OTHERS: &[i32] = &[2, 4, NO_MEMORY, 13, 17, 20];

// Some calls of each kind.
const FEW: &[Step<'static>] = &[
    Step::Names(b"/usr/lib"),
    Step::Look(b"/usr/lib/libz.so"),
    Step::Link(b"/usr/lib/new", b"up"),
    Step::Link(b"/usr/lib/libz.so", b"libz.so.2"),
    Step::Settle(b"/usr/lib"),
];

/// Makes each call with each call of the system failing in turn by EIO. Directories are read in small parts.
pub fn try_errors(rt: &HostRuntime, trial: &Trial, report: &mut Report<'_>) -> io::Result<()> {
    report.begin("failing calls");
    IMAGE.make(rt)?;
    trial.plan().move_in(Manner::of(1));
    for step in STEPS {
        try_step(rt, trial, *step, IO_ERROR, report)?;
    }
    trial.plan().move_in(Manner::WHOLE);
    report.end(STEPS.len() as u64)
}

/// Makes some calls with each call of the system failing in turn by other errors.
pub fn try_other_errors(
    rt: &HostRuntime,
    trial: &Trial,
    report: &mut Report<'_>,
) -> io::Result<()> {
    report.begin("calls that fail by other errors");
    IMAGE.make(rt)?;
    for code in OTHERS {
        for step in FEW {
            try_step(rt, trial, *step, *code, report)?;
        }
    }
    report.end(OTHERS.len() as u64)
}

// Makes a call with each call of the system failing in turn, until none is left.
fn try_step(
    rt: &HostRuntime,
    trial: &Trial,
    step: Step<'static>,
    code: i32,
    report: &mut Report<'_>,
) -> io::Result<()> {
    let mut case = case_of(rt, step)?;
    for calls in 0..MOST {
        report.go_to(calls);
        let failed = try_failing(rt, trial, &mut case, (calls, code), report)?;
        undo(rt, step)?;
        if !failed {
            report.expect(calls > 0, "makes no call");
            return expect_new(rt, &mut case, true, report);
        }
    }
    report.expect(false, "makes too many calls");
    Ok(())
}

// The call with this number fails by this error. Then the call is made again. Returns whether there is such a call.
fn try_failing(
    rt: &HostRuntime,
    trial: &Trial,
    case: &mut Case,
    failure: (u64, i32),
    report: &mut Report<'_>,
) -> io::Result<bool> {
    let (calls, code) = failure;
    let mut real = real_folder(trial, IMAGE.root)?;
    let plan = trial.plan();
    plan.fail_with(calls, code);
    let answer = case.step.make(rt.alloc(), &mut real, Tag(1))?;
    let failed = plan.end_failing().is_some();
    report.expect(
        plan.take_lines() == lines_of(&answer),
        "not one line for its error",
    );
    report.expect(
        is_right(&answer, &case.answer, failed, code),
        "hides an error",
    );
    expect_old_or_new(rt, case, &answer, report)?;
    expect_again(rt, trial, &mut real, case, report)?;
    Ok(failed)
}

// Whether a result is right, after a call of the system failed by this error or none failed.
fn is_right(answer: &Answer, expected: &Answer, failed: bool, code: i32) -> bool {
    if !failed {
        return is_same_answer(answer, expected);
    }
    if code == IO_ERROR {
        return is_same_answer(answer, &Answer::Failed);
    }
    if code == NO_MEMORY && reads(expected) {
        return is_same_answer(answer, &Answer::NoMemory);
    }
    true
}

// Whether this is the result of a call that reads.
fn reads(answer: &Answer) -> bool {
    match answer {
        Answer::Names(_) => true,
        Answer::Node(_) => true,
        _ => false,
    }
}

// The call is made again, and no call of the system fails.
fn expect_again<F: Folder>(
    rt: &HostRuntime,
    trial: &Trial,
    real: &mut F,
    case: &mut Case,
    report: &mut Report<'_>,
) -> io::Result<()> {
    let again = case.step.make(rt.alloc(), real, Tag(1))?;
    report.expect(
        is_same_answer(&again, &case.answer),
        "another result after an error",
    );
    report.expect(
        trial.plan().take_lines() == lines_of(&again),
        "other lines after an error",
    );
    expect_new(rt, case, false, report)
}
