//! Random sequences of calls on both directories.
use real_folder_fixture::{Answer, IMAGE, LONG_NAME, Step, inode_of, is_same_answer, real_folder};
use root_folder::{Folder, MemFolder};
use std::io;
use std::str::from_utf8;
use tree_face::Tag;
use trial_devices::{Flushes, Manner, Random, Report, Trial};

const ROUNDS: u64 = 60;

const TURNS: u64 = 40;

/// Paths of directories.
const DIRS: &[&[u8]] = &[
    b"/",
    b"/empty",
    b"/etc",
    b"/usr",
    b"/usr/lib",
    b"/usr/lib/a",
    b"/usr/lib/a/deep",
    b"/usr/lib/a.b",
];

/// Paths where a link can be made.
const FREE: &[&[u8]] = &[
    b"/new",
    b"/lib",
    b"/outside",
    b"/empty/new",
    b"/etc/new",
    b"/usr/lib/absolute",
    b"/usr/lib/loop",
    b"/usr/lib/dangling",
    b"/usr/lib/libz.so",
    b"/usr/lib/libz.so.2",
    b"/usr/lib/a/deep/libc.so",
    b"/usr/lib/a/up",
    b"/usr/lib/a.b/.ldconfig",
    LONG_NAME,
];

/// Paths where no link can be made: of other nodes, below links and files, and in directories that are missing.
const TAKEN: &[&[u8]] = &[
    b"/top",
    b"/usr",
    b"/empty",
    b"/usr/lib/libz.so.1",
    b"/usr/lib/lib\xC3\xA9.so",
    b"/usr/lib/a.b",
    b"/lib/libz.so",
    b"/lib/new",
    b"/outside/new",
    b"/outside/secret",
    b"/top/new",
    b"/usr/lib/loop/new",
    b"/usr/lib/a/up/new",
    b"/usr/lib/absolute/ld.so.conf",
    b"/missing/new",
    b"/usr/lib/missing/deeper/new",
];

/// Texts that aren't paths.
const NO_PATHS: &[&[u8]] = &[
    b"",
    b"usr",
    b"/usr/",
    b"//usr",
    b"/./usr",
    b"/usr/../etc",
    b"/..",
    b"/../outside",
    b"/usr/lib/t\xFFp",
];

const TARGETS: &[&[u8]] = &[
    b"libz.so.1",
    b"a",
    b"../../etc",
    b"/absolute/path",
    b"..",
    b"line\nfeed",
    b"\xC3\xA9",
    LONG_NAME,
];

/// Makes the same calls on the directory on the disk and on one in memory, in each manner of moving bytes.
pub fn try_turns(rt: &HostRuntime, trial: &Trial, report: &mut Report<'_>) -> io::Result<()> {
    report.begin("sequences of calls");
    for round in 0..ROUNDS {
        report.go_to(round);
        trial.plan().move_in(Manner::of(round));
        try_round(rt, trial, round, report)?;
    }
    trial.plan().move_in(Manner::WHOLE);
    report.end(ROUNDS)
}

fn try_round(
    rt: &HostRuntime,
    trial: &Trial,
    seed: u64,
    report: &mut Report<'_>,
) -> io::Result<()> {
    IMAGE.make(rt)?;
    let mut model = IMAGE.model(rt)?;
    let mut real = real_folder(trial, IMAGE.root)?;
    let mut random = Random::new(seed);
    for _turn in 0..TURNS {
        let step = step_of(&mut random);
        let tag = Tag(random.below(3) as u16);
        make_turn(rt, trial, &mut real, &mut model, (step, tag), report)?;
    }
    report.expect(IMAGE.is_as(rt, &mut model)?, "another image on the disk");
    Ok(())
}

fn step_of(random: &mut Random) -> Step<'static> {
    match random.below(8) {
        0 => Step::Names(place(random)),
        1 => Step::Names(one_of(random, DIRS)),
        2 | 3 => Step::Look(place(random)),
        4 => Step::Link(one_of(random, TAKEN), one_of(random, TARGETS)),
        5 | 6 => Step::Link(one_of(random, FREE), one_of(random, TARGETS)),
        _ => Step::Settle(place(random)),
    }
}

fn one_of(random: &mut Random, texts: &'static [&'static [u8]]) -> &'static [u8] {
    if texts.is_empty() {
        return b"";
    }
    texts[random.below(texts.len())]
}

// Any path or other text.
fn place(random: &mut Random) -> &'static [u8] {
    match random.below(4) {
        0 => one_of(random, DIRS),
        1 => one_of(random, FREE),
        2 => one_of(random, TAKEN),
        _ => one_of(random, NO_PATHS),
    }
}

// Makes the same call on both directories.
fn make_turn<F: Folder>(
    rt: &HostRuntime,
    trial: &Trial,
    real: &mut F,
    model: &mut MemFolder,
    call: (Step<'_>, Tag),
    report: &mut Report<'_>,
) -> io::Result<()> {
    let (step, tag) = call;
    let faults = model.faults();
    let expected = step.make(rt.alloc(), model, tag)?;
    let answer = step.make(rt.alloc(), real, tag)?;
    report.expect(is_same_answer(&answer, &expected), fact_of(step));
    let lines = model.faults().saturating_sub(faults);
    report.expect(
        trial.plan().take_lines() == lines,
        "not one line for each error",
    );
    let flushes = flushes_of(rt, step, &expected)?;
    report.expect(trial.plan().take_flushes() == flushes, "other flushes");
    Ok(())
}

fn fact_of(step: Step<'_>) -> &'static str {
    match step {
        Step::Names(_) => "names: another result",
        Step::Look(_) => "look: another result",
        Step::Link(_, _) => "link: another result",
        Step::Settle(_) => "settle: another result",
    }
}

// The flushes of a call: that of the directory that is settled.
fn flushes_of(rt: &HostRuntime, step: Step<'_>, answer: &Answer) -> io::Result<Flushes> {
    match (step, answer) {
        (Step::Settle(dir), Answer::Done) => {
            let dir = from_utf8(dir).unwrap_or("");
            let inode = inode_of(rt, IMAGE.on_disk(rt, dir)?.as_str())?;
            Ok(Flushes::NONE.with(inode))
        }
        _ => Ok(Flushes::NONE),
    }
}
