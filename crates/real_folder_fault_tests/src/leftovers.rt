//! Temporary links that stopped runs left.
use real_folder_fixture::{
    Answer, IMAGE, Step, inode_of, is_same_answer, is_there, node_of_link, node_on_disk,
    real_folder,
};
use root_folder::Folder;
use std::os::unix::fs::symlink;
use std::{fs, io};
use tree_face::Tag;
use trial_devices::{Flushes, Report, SystemCall, Trial};

// Temporary links of a process that doesn't run.
const LEFT: &[&str] = &[
    "/usr/lib/.ldconfig.tmp0.99999999.5",
    "/usr/lib/.ldconfig.tmp65535.99999998.18446744073709551615",
];

// Such a link in another directory.
const ELSEWHERE: &str = "/usr/lib/a/.ldconfig.tmp0.99999999.5";

// Links with other names.
const OTHERS: &[&str] = &[
    "/usr/lib/.ldconfig.tmp0.99999999.5x",
    "/usr/lib/.ldconfig.tmp0.99999999",
    "/usr/lib/.ldconfig.tmp.99999999.5",
    "/usr/lib/.ldconfig.tmp0..5",
    "/usr/lib/.ldconfig.new0.99999999.5",
    "/usr/lib/x.ldconfig.tmp0.99999999.5",
    "/usr/lib/ldconfig.tmp0.99999999.5",
];

// A file and a directory with the names of temporary links.
const NO_LINKS: &[&str] = &[
    "/usr/lib/.ldconfig.tmp1.99999999.5",
    "/usr/lib/.ldconfig.tmp2.99999999.5",
];

fn put_link(rt: &HostRuntime, path: &str) -> io::Result<()> {
    symlink(rt, "left", IMAGE.on_disk(rt, path)?.as_str())
}

fn put_leftovers(rt: &HostRuntime) -> io::Result<()> {
    IMAGE.make(rt)?;
    for path in LEFT {
        put_link(rt, path)?;
    }
    for path in OTHERS {
        put_link(rt, path)?;
    }
    put_link(rt, ELSEWHERE)?;
    fs::write(rt, IMAGE.on_disk(rt, NO_LINKS[0])?.as_str(), "")?;
    fs::create_dir(rt, IMAGE.on_disk(rt, NO_LINKS[1])?.as_str())?;
    put_link(rt, own_link(rt)?.as_str())
}

// A temporary link of this process, which runs.
fn own_link(rt: &HostRuntime) -> io::Result<String> {
    let process = fs::read_link(rt, "/proc/self")?;
    let process = process.as_str();
    Ok(format!(in rt.alloc(); "/usr/lib/.ldconfig.tmp0.{process}.5")?)
}

// Whether one of these paths is on the disk, and whether all are.
fn some_and_all(rt: &HostRuntime, paths: &[&str]) -> io::Result<(bool, bool)> {
    let mut some = false;
    let mut all = true;
    for path in paths {
        let found = is_there(rt, IMAGE.on_disk(rt, path)?.as_str());
        some = some || found;
        all = all && found;
    }
    Ok((some, all))
}

// Everything but what ended runs left is there.
fn expect_others(rt: &HostRuntime, report: &mut Report<'_>) -> io::Result<()> {
    for paths in [OTHERS, NO_LINKS] {
        let (_, all) = some_and_all(rt, paths)?;
        report.expect(all, "removes something else");
    }
    let own = own_link(rt)?;
    let is_kept = is_there(rt, IMAGE.on_disk(rt, own.as_str())?.as_str());
    report.expect(is_kept, "removes the link of a run");
    Ok(())
}

// Links in the order in which they are made, with the directories that are flushed before.
const LINKS: &[(&[u8], &[&str])] = &[
    (b"/usr/lib/new", &["/usr/lib"]),
    (b"/usr/lib/libz.so", &[]),
    (b"/etc/new", &[]),
    (b"/usr/lib/a/new", &["/usr/lib/a"]),
    (b"/usr/lib/a/up", &[]),
];

/// Makes links in directories with temporary links. Those of ended runs are removed before, and that is flushed.
pub fn try_leftovers(rt: &HostRuntime, trial: &Trial, report: &mut Report<'_>) -> io::Result<()> {
    report.begin("temporary links that were left");
    put_leftovers(rt)?;
    let mut real = real_folder(trial, IMAGE.root)?;
    let _ = trial.plan().take_flushes();
    let mut number = 0u64;
    for (path, dirs) in LINKS {
        report.go_to(number);
        number = number.saturating_add(1);
        make_link(rt, &mut real, path, report)?;
        let mut flushes = Flushes::NONE;
        for dir in *dirs {
            flushes = flushes.with(inode_of(rt, IMAGE.on_disk(rt, dir)?.as_str())?);
        }
        report.expect(trial.plan().take_flushes() == flushes, "other flushes");
        let (_, elsewhere) = some_and_all(rt, &[ELSEWHERE])?;
        report.expect(elsewhere == (number <= 3), "another directory is cleaned");
    }
    let (some, _) = some_and_all(rt, LEFT)?;
    report.expect(!some, "leaves a temporary link");
    expect_others(rt, report)?;
    report.expect(trial.plan().take_lines() == 0, "a line without an error");
    report.end(LINKS.len() as u64)
}

fn make_link<F: Folder>(
    rt: &HostRuntime,
    real: &mut F,
    path: &[u8],
    report: &mut Report<'_>,
) -> io::Result<()> {
    let step = Step::Link(path, b"target");
    let answer = step.make(rt.alloc(), real, Tag(0))?;
    report.expect(is_same_answer(&answer, &Answer::Done), "link: fails");
    Ok(())
}

// More calls of the system than a removal and a link make.
const MOST: u64 = 200;

/// Makes a link in a directory with temporary links, with each call of the system failing in turn. If one of them can't be removed, the
/// call fails and makes no link.
pub fn try_kept(rt: &HostRuntime, trial: &Trial, report: &mut Report<'_>) -> io::Result<()> {
    report.begin("failing calls while temporary links are removed");
    let mut removals = 0u64;
    for calls in 0..MOST {
        report.go_to(calls);
        put_leftovers(rt)?;
        let failed = try_keeping(rt, trial, calls, report)?;
        if failed.is_none() {
            report.expect(removals == LEFT.len() as u64, "other removals");
            return report.end(1);
        }
        removals = removals.saturating_add(u64::from(failed == Some(SystemCall::Remove)));
    }
    report.expect(false, "makes too many calls");
    report.end(1)
}

fn try_keeping(
    rt: &HostRuntime,
    trial: &Trial,
    calls: u64,
    report: &mut Report<'_>,
) -> io::Result<Option<SystemCall>> {
    let mut real = real_folder(trial, IMAGE.root)?;
    let plan = trial.plan();
    plan.fail_after(calls);
    let step = Step::Link(b"/usr/lib/new", b"target");
    let answer = step.make(rt.alloc(), &mut real, Tag(0))?;
    let failed = plan.end_failing();
    let is_done = is_same_answer(&answer, &Answer::Done);
    // A link that can't be looked at stays. That is not an error of this call.
    let may_be_done = failed.is_none() || failed == Some(SystemCall::Look);
    report.expect(!is_done || may_be_done, "hides an error");
    report.expect(is_done || failed.is_some(), "fails without a cause");
    report.expect(
        plan.take_lines() == u64::from(!is_done),
        "not one line for its error",
    );
    let made = is_there(rt, IMAGE.on_disk(rt, "/usr/lib/new")?.as_str());
    report.expect(made == is_done, "another link");
    expect_others(rt, report)?;
    let again = step.make(rt.alloc(), &mut real, Tag(0))?;
    report.expect(
        is_same_answer(&again, &Answer::Done),
        "fails after an error",
    );
    let _ = plan.take_flushes();
    Ok(failed)
}

/// Replaces a link while files have the first temporary names of this run. They stay.
pub fn try_taken(rt: &HostRuntime, trial: &Trial, report: &mut Report<'_>) -> io::Result<()> {
    report.begin("temporary names that are taken");
    IMAGE.make(rt)?;
    for number in ["7", "8"] {
        let path = format!(in rt.alloc(); "/usr/lib/.ldconfig.tmp3.99999999.{number}")?;
        fs::write(rt, IMAGE.on_disk(rt, path.as_str())?.as_str(), "")?;
    }
    let mut real = real_folder(trial, IMAGE.root)?;
    let step = Step::Link(b"/usr/lib/libz.so", b"target");
    let answer = step.make(rt.alloc(), &mut real, Tag(3))?;
    report.expect(is_same_answer(&answer, &Answer::Done), "link: fails");
    let path = IMAGE.on_disk(rt, "/usr/lib/libz.so")?;
    let found = Answer::Node(node_on_disk(rt, path.as_str(), b"")?);
    let expected = node_of_link(rt, "target")?;
    report.expect(is_same_answer(&found, &expected), "link: another target");
    for number in ["7", "8"] {
        let path = format!(in rt.alloc(); "/usr/lib/.ldconfig.tmp3.99999999.{number}")?;
        let is_kept = is_there(rt, IMAGE.on_disk(rt, path.as_str())?.as_str());
        report.expect(is_kept, "removes something else");
    }
    report.end(1)
}
