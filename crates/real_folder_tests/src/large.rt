//! Directories with many names, and paths of many directories.
use real_folder_fixture::{
    Answer, IMAGE, Step, is_same_answer, names_of, node_of_link, real_folder,
};
use root_folder::Folder;
use std::{fs, io};
use tree_face::Tag;
use trial_devices::{Manner, Report, Trial};

// More names than one call of the system returns.
const NAMES: usize = 400;

// More directories than are open at once.
const DEPTH: usize = 70;

/// Makes many links in a directory, and lists it.
pub fn try_many(rt: &HostRuntime, trial: &Trial, report: &mut Report<'_>) -> io::Result<()> {
    report.begin("a directory with many names");
    for number in 0..2 {
        report.go_to(number);
        trial.plan().move_in(Manner::of(number));
        make_many(rt, trial, report)?;
    }
    trial.plan().move_in(Manner::WHOLE);
    report.end(2)
}

fn make_many(rt: &HostRuntime, trial: &Trial, report: &mut Report<'_>) -> io::Result<()> {
    IMAGE.make(rt)?;
    let alloc = rt.alloc();
    let mut model = IMAGE.model(rt)?;
    let mut real = real_folder(trial, IMAGE.root)?;
    for number in 0..NAMES {
        let path = format!(in alloc; "/empty/libnumber{number}.so.1")?;
        let step = Step::Link(path.as_bytes(), b"target");
        let expected = step.make(alloc, &mut model, Tag(0))?;
        let answer = step.make(alloc, &mut real, Tag(0))?;
        report.expect(is_same_answer(&answer, &expected), "link: another result");
    }
    let step = Step::Names(b"/empty");
    let expected = step.make(alloc, &mut model, Tag(0))?;
    let answer = step.make(alloc, &mut real, Tag(0))?;
    report.expect(is_same_answer(&answer, &expected), "names: another result");
    report.expect(IMAGE.is_as(rt, &mut model)?, "another image on the disk");
    Ok(())
}

/// Makes a link in each of many directories, each in the one before it, and then looks at them, the deepest first.
pub fn try_deep(rt: &HostRuntime, trial: &Trial, report: &mut Report<'_>) -> io::Result<()> {
    report.begin("a path of many directories");
    IMAGE.make(rt)?;
    let mut real = real_folder(trial, IMAGE.root)?;
    let mut dirs: Vec<String> = Vec::new(rt.alloc());
    let mut dir = String::from_str(rt.alloc(), "")?;
    for depth in 0..DEPTH {
        dir.push_str("/d")?;
        fs::create_dir(rt, IMAGE.on_disk(rt, dir.as_str())?.as_str())?;
        make_numbered(rt, &mut real, dir.as_str(), depth, report)?;
        dirs.push(dir.clone()?)?;
    }
    for depth in 0..DEPTH {
        let depth = DEPTH - 1 - depth;
        report.go_to(depth as u64);
        if let Some(dir) = dirs.get(depth) {
            expect_numbered(rt, &mut real, dir.as_str(), depth, report)?;
        }
    }
    report.expect(trial.plan().take_lines() == 0, "a line without an error");
    report.end(DEPTH as u64)
}

// Makes a link with this number.
fn make_numbered<F: Folder>(
    rt: &HostRuntime,
    real: &mut F,
    dir: &str,
    number: usize,
    report: &mut Report<'_>,
) -> io::Result<()> {
    let path = format!(in rt.alloc(); "{dir}/n")?;
    let target = format!(in rt.alloc(); "{number}")?;
    let step = Step::Link(path.as_bytes(), target.as_bytes());
    let answer = step.make(rt.alloc(), real, Tag(0))?;
    report.expect(is_same_answer(&answer, &Answer::Done), "link: fails");
    Ok(())
}

// The directory has a link with this number, and all but the last one a directory.
fn expect_numbered<F: Folder>(
    rt: &HostRuntime,
    real: &mut F,
    dir: &str,
    number: usize,
    report: &mut Report<'_>,
) -> io::Result<()> {
    let path = format!(in rt.alloc(); "{dir}/n")?;
    let target = format!(in rt.alloc(); "{number}")?;
    let found = Step::Look(path.as_bytes()).make(rt.alloc(), real, Tag(0))?;
    let expected = node_of_link(rt, target.as_str())?;
    report.expect(is_same_answer(&found, &expected), "look: another result");
    let names: &[&str] = if number == DEPTH - 1 {
        &["n"]
    } else {
        &["d", "n"]
    };
    let found = Step::Names(dir.as_bytes()).make(rt.alloc(), real, Tag(0))?;
    let expected = names_of(rt, names)?;
    report.expect(is_same_answer(&found, &expected), "names: another result");
    Ok(())
}
