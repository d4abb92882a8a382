//! Paths of the image's directory, targets that can't be made, and special files.
use real_folder_fixture::{
    Answer, IMAGE, RUN, Step, is_same_answer, names_of, no_memory, real_folder,
};
use root_folder::Folder;
use root_real::RootFolder;
use std::io;
use std::os::unix::fs::symlink;
use tree_face::Tag;
use trial_devices::{Report, Trial};

// Paths of the image's directory.
const ROOTS: &[&str] = &["image", "image/", "./image", "image/usr/..", "root-link"];

// Paths of no directory.
const NO_ROOTS: &[&str] = &["no-image", "image/top", "image/top/", "image/usr/lib/loop"];

/// Lists the image by several paths of its directory, and what is no directory.
pub fn try_roots(rt: &HostRuntime, trial: &Trial, report: &mut Report<'_>) -> io::Result<()> {
    report.begin("paths of the image's directory");
    IMAGE.make(rt)?;
    symlink(rt, IMAGE.root, "root-link")?;
    let mut model = IMAGE.model(rt)?;
    for root in ROOTS {
        let mut real = real_folder(trial, root)?;
        for step in [Step::Names(b"/"), Step::Look(b"/top"), Step::Settle(b"/")] {
            let expected = step.make(rt.alloc(), &mut model, Tag(0))?;
            expect(rt, &mut real, step, &expected, report)?;
        }
        report.expect(trial.plan().take_lines() == 0, "a line without an error");
    }
    for root in NO_ROOTS {
        let mut real = real_folder(trial, root)?;
        expect_failures(rt, trial, &mut real, report)?;
    }
    report.expect(IMAGE.is_as(rt, &mut model)?, "another image on the disk");
    let _ = trial.plan().take_flushes();
    report.end((ROOTS.len() + NO_ROOTS.len()) as u64)
}

fn expect<F: Folder>(
    rt: &HostRuntime,
    real: &mut F,
    step: Step<'_>,
    expected: &Answer,
    report: &mut Report<'_>,
) -> io::Result<()> {
    let answer = step.make(rt.alloc(), real, Tag(0))?;
    report.expect(is_same_answer(&answer, expected), "another result");
    Ok(())
}

fn expect_failures<F: Folder>(
    rt: &HostRuntime,
    trial: &Trial,
    real: &mut F,
    report: &mut Report<'_>,
) -> io::Result<()> {
    for step in [
        Step::Names(b"/"),
        Step::Link(b"/x", b"y"),
        Step::Settle(b"/"),
    ] {
        expect(rt, real, step, &Answer::Failed, report)?;
        report.expect(trial.plan().take_lines() == 1, "not one line for its error");
    }
    Ok(())
}

/// Makes links whose targets aren't UTF-8 text. This fails and changes nothing, also in place of a link.
pub fn try_targets(rt: &HostRuntime, trial: &Trial, report: &mut Report<'_>) -> io::Result<()> {
    report.begin("targets that aren't UTF-8 text");
    IMAGE.make(rt)?;
    let mut model = IMAGE.model(rt)?;
    let mut real = real_folder(trial, IMAGE.root)?;
    for path in [b"/usr/lib/new".as_slice(), b"/usr/lib/libz.so".as_slice()] {
        let step = Step::Link(path, b"t\xFFrget");
        expect(rt, &mut real, step, &Answer::Failed, report)?;
        report.expect(trial.plan().take_lines() == 1, "not one line for its error");
        report.expect(IMAGE.is_as(rt, &mut model)?, "another image on the disk");
    }
    report.end(2)
}

/// Reads special files and another file system, of which this machine has both. No link may replace a special file, so it counts as a
/// directory.
pub fn try_special(rt: &HostRuntime, trial: &Trial, report: &mut Report<'_>) -> io::Result<()> {
    report.begin("special files and another file system");
    let mut real = RootFolder::new(trial.clone()?, "/", RUN).map_err(|_| no_memory())?;
    let no_names = names_of(rt, &[])?;
    let a_dir = Answer::Node(Some(tree_face::Node::Dir));
    expect(rt, &mut real, Step::Look(b"/dev/null"), &a_dir, report)?;
    expect(rt, &mut real, Step::Names(b"/dev/null"), &no_names, report)?;
    expect(rt, &mut real, Step::Look(b"/proc"), &a_dir, report)?;
    expect(rt, &mut real, Step::Names(b"/proc"), &no_names, report)?;
    report.expect(trial.plan().take_lines() == 0, "a line without an error");
    for step in [
        Step::Names(b"/dev/null/x"),
        Step::Settle(b"/dev/null"),
        Step::Names(b"/no-such-directory"),
    ] {
        expect(rt, &mut real, step, &Answer::Failed, report)?;
        report.expect(trial.plan().take_lines() == 1, "not one line for its error");
    }
    report.end(7)
}
