//! From some call of the system on, all fail, as if the run was stopped there.
use crate::steps::{Case, MOST, STEPS, case_of, expect_new, expect_old_or_new, lines_of, undo};
use real_folder_fixture::{IMAGE, Step, is_same_answer, real_folder, temporaries_in};
use std::io;
use tree_face::Tag;
use trial_devices::{Report, Trial};

// The directories in which links are made.
const DIRS: &[&str] = &["/", "/usr/lib/a", "/usr/lib"];

/// Makes each call with all calls of the system failing from each one on, and then again by another run.
pub fn try_lasting(rt: &HostRuntime, trial: &Trial, report: &mut Report<'_>) -> io::Result<()> {
    report.begin("calls that fail from one on");
    IMAGE.make(rt)?;
    for step in STEPS {
        try_step(rt, trial, *step, report)?;
    }
    report.end(STEPS.len() as u64)
}

fn try_step(
    rt: &HostRuntime,
    trial: &Trial,
    step: Step<'static>,
    report: &mut Report<'_>,
) -> io::Result<()> {
    let mut case = case_of(rt, step)?;
    for calls in 0..MOST {
        report.go_to(calls);
        let failed = try_stopping(rt, trial, &mut case, calls, report)?;
        undo(rt, step)?;
        if !failed {
            return expect_new(rt, &mut case, true, report);
        }
    }
    report.expect(false, "makes too many calls");
    Ok(())
}

// All calls fail from this one on. The next run works, and leaves no temporary link. Returns whether there is such a call.
fn try_stopping(
    rt: &HostRuntime,
    trial: &Trial,
    case: &mut Case,
    calls: u64,
    report: &mut Report<'_>,
) -> io::Result<bool> {
    let mut stopped = real_folder(trial, IMAGE.root)?;
    let plan = trial.plan();
    plan.fail_from(calls);
    let answer = case.step.make(rt.alloc(), &mut stopped, Tag(1))?;
    let failed = plan.end_failing().is_some();
    report.expect(
        plan.take_lines() == lines_of(&answer),
        "not one line for its error",
    );
    report.expect(!failed || lines_of(&answer) == 1, "hides an error");
    let left = temporaries(rt)?;
    report.expect(left <= 1, "leaves two temporary links");
    report.expect(
        temporaries_in(rt, ".")? == 0,
        "a temporary link outside of the image",
    );
    if left == 0 {
        expect_old_or_new(rt, case, &answer, report)?;
    }
    let mut next = real_folder(trial, IMAGE.root)?;
    let again = case.step.make(rt.alloc(), &mut next, Tag(2))?;
    report.expect(
        is_same_answer(&again, &case.answer),
        "the next run: another result",
    );
    let _ = plan.take_lines();
    expect_new(rt, case, false, report)?;
    Ok(failed)
}

fn temporaries(rt: &HostRuntime) -> io::Result<u64> {
    let mut count = 0u64;
    for dir in DIRS {
        count = count.saturating_add(temporaries_in(rt, IMAGE.on_disk(rt, dir)?.as_str())?);
    }
    Ok(count)
}
