//! The calls that fail, and what they leave.
use real_folder_fixture::{Answer, IMAGE, Step, is_same_answer};
use root_folder::MemFolder;
use std::os::unix::fs::symlink;
use std::str::from_utf8;
use std::{fs, io};
use tree_face::{Kind, Tag};
use trial_devices::Report;

/// Each kind of call, with what it finds.
pub const STEPS: &[Step<'static>] = &[
    Step::Names(b"/"),
    Step::Names(b"/usr/lib"),
    Step::Names(b"/top"),
    Step::Look(b"/usr/lib/libz.so.1"),
    Step::Look(b"/usr/lib/libz.so"),
    Step::Look(b"/usr/lib/a"),
    Step::Look(b"/usr/lib/missing"),
    Step::Link(b"/new", b"top"),
    Step::Link(b"/usr/lib/a/new", b"up"),
    Step::Link(b"/usr/lib/libz.so", b"libz.so.2"),
    Step::Link(b"/usr/lib/libz.so.1", b"libz.so.2"),
    Step::Settle(b"/"),
    Step::Settle(b"/usr/lib/a"),
];

/// More calls of the system than one of these makes.
pub const MOST: u64 = 200;

/// A call, the image in memory before it and after it, and its result.
#[derive(Drop)]
pub struct Case {
    pub step: Step<'static>,
    pub old: MemFolder,
    pub new: MemFolder,
    pub answer: Answer,
}

/// This call on the image that is on the disk.
pub fn case_of(rt: &HostRuntime, step: Step<'static>) -> io::Result<Case> {
    let old = IMAGE.model(rt)?;
    let mut new = IMAGE.model(rt)?;
    let answer = step.make(rt.alloc(), &mut new, Tag(1))?;
    Ok(Case {
        step,
        old,
        new,
        answer,
    })
}

/// Takes back a link that this call may have made on the disk.
pub fn undo(rt: &HostRuntime, step: Step<'_>) -> io::Result<()> {
    let Step::Link(path, _) = step else {
        return Ok(());
    };
    let path = from_utf8(path).unwrap_or("");
    let place = IMAGE.on_disk(rt, path)?;
    match IMAGE.row(path) {
        None => {
            let _ = fs::remove_file(rt, place.as_str());
            Ok(())
        }
        Some((_, Kind::Link, target)) => {
            let _ = fs::remove_file(rt, place.as_str());
            symlink(rt, target, place.as_str())
        }
        Some(_) => Ok(()),
    }
}

/// The number of lines on the error output for a result.
pub fn lines_of(answer: &Answer) -> u64 {
    match answer {
        Answer::Failed => 1,
        _ => 0,
    }
}

/// Whether this call changes the image.
pub fn is_link(step: Step<'_>) -> bool {
    match step {
        Step::Link(_, _) => true,
        _ => false,
    }
}

/// After a link was to be made, the disk has the image before the call or after it. If it was made, the disk has the latter.
pub fn expect_old_or_new(
    rt: &HostRuntime,
    case: &mut Case,
    answer: &Answer,
    report: &mut Report<'_>,
) -> io::Result<()> {
    if !is_link(case.step) {
        return Ok(());
    }
    let is_done = is_same_answer(answer, &Answer::Done);
    let is_right = IMAGE.is_as(rt, &mut case.new)? || (!is_done && IMAGE.is_as(rt, &mut case.old)?);
    report.expect(is_right, "neither the old image nor the new one");
    Ok(())
}

/// The disk has the image after the call. Of a call that makes no link, this is only compared `at_end`.
pub fn expect_new(
    rt: &HostRuntime,
    case: &mut Case,
    at_end: bool,
    report: &mut Report<'_>,
) -> io::Result<()> {
    if is_link(case.step) != at_end {
        report.expect(
            IMAGE.is_as(rt, &mut case.new)?,
            "another image after an error",
        );
    }
    Ok(())
}
