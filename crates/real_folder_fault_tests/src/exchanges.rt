//! Directories of the image that links replace while a call is made.
use crate::steps::{Case, case_of, undo};
use real_folder_fixture::{
    Answer, IMAGE, Image, Step, inode_of, is_same_answer, is_there, real_folder,
};
use std::{fs, io};
use tree_face::{Kind, Tag};
use trial_devices::{Exchange, Flushes, Report, Trial};

// What the links lead to, outside of the image: the same names with other content.
const OUTSIDE: Image = Image {
    root: "secret",
    rows: &[
        ("/lib", Kind::Dir, ""),
        ("/lib/a", Kind::Dir, ""),
        ("/lib/a/deep", Kind::Dir, ""),
        ("/lib/a/secret", Kind::File, "secret"),
        ("/lib/a/up", Kind::Link, "secret"),
        ("/lib/.ldconfig.tmp0.99999999.5", Kind::Link, "secret"),
        ("/lib/libz.so", Kind::Link, "secret"),
        ("/lib/libz.so.1", Kind::File, "secret"),
        ("/lib/secret", Kind::File, "secret"),
    ],
};

// Directories on the way to a file, and links to the same directories outside.
const EXCHANGES: &[Exchange] = &[
    Exchange {
        dir: "image/usr",
        aside: "aside",
        target: "../secret",
    },
    Exchange {
        dir: "image/usr/lib",
        aside: "aside",
        target: "../../secret/lib",
    },
    Exchange {
        dir: "image/usr/lib/a",
        aside: "aside",
        target: "../../../secret/lib/a",
    },
];

const STEPS: &[Step<'static>] = &[
    Step::Names(b"/usr/lib/a"),
    Step::Look(b"/usr/lib/libz.so.1"),
    Step::Look(b"/usr/lib/a/up"),
    Step::Look(b"/usr/lib/a/secret"),
    Step::Link(b"/usr/lib/a/new", b"target"),
    Step::Link(b"/usr/lib/libz.so", b"target"),
    Step::Settle(b"/usr/lib/a"),
];

// More calls of the system by a path than one of these makes.
const MOST: u64 = 100;

/// Makes each call while a link replaces each directory on the way, before each call of the system in turn. Nothing outside is read or
/// changed.
pub fn try_exchanges(rt: &HostRuntime, trial: &Trial, report: &mut Report<'_>) -> io::Result<()> {
    report.begin("directories that links replace");
    IMAGE.make(rt)?;
    OUTSIDE.make(rt)?;
    let mut outside = OUTSIDE.model(rt)?;
    for exchange in EXCHANGES {
        for step in STEPS {
            try_step(rt, trial, *step, *exchange, report)?;
            report.expect(OUTSIDE.is_as(rt, &mut outside)?, "changes what is outside");
        }
    }
    let trials = EXCHANGES.len().saturating_mul(STEPS.len());
    report.end(trials as u64)
}

fn try_step(
    rt: &HostRuntime,
    trial: &Trial,
    step: Step<'static>,
    exchange: Exchange,
    report: &mut Report<'_>,
) -> io::Result<()> {
    let case = case_of(rt, step)?;
    for calls in 0..MOST {
        report.go_to(calls);
        let is_made = try_exchange(rt, trial, &case, (calls, exchange), report)?;
        if is_made {
            fs::remove_file(rt, exchange.dir)?;
            fs::rename(rt, exchange.aside, exchange.dir)?;
        }
        undo(rt, step)?;
        if !is_made {
            report.expect(calls > 0, "makes no call");
            return Ok(());
        }
    }
    report.expect(false, "makes too many calls");
    Ok(())
}

// The directory is replaced before the call with this number. Returns whether there is such a call.
fn try_exchange(
    rt: &HostRuntime,
    trial: &Trial,
    case: &Case,
    when: (u64, Exchange),
    report: &mut Report<'_>,
) -> io::Result<bool> {
    let (calls, exchange) = when;
    let flushes = flushes_of(rt, case.step)?;
    let mut real = real_folder(trial, IMAGE.root)?;
    let plan = trial.plan();
    trial.exchanges().make_after(calls, exchange);
    let found = case.step.make(rt.alloc(), &mut real, Tag(1))?;
    let is_made = trial.exchanges().end();
    report.expect(is_made == is_there(rt, exchange.aside), "is not made");
    report.expect(
        is_inside(&found, &case.answer, is_made),
        "reads what is outside",
    );
    let made = plan.take_flushes();
    report.expect(
        made == flushes || made == Flushes::NONE,
        "flushes what is outside",
    );
    let _ = plan.take_lines();
    Ok(is_made)
}

// Whether a result is that of the image as it was, or as it is with a link: below a link there is nothing.
fn is_inside(found: &Answer, expected: &Answer, is_made: bool) -> bool {
    if is_same_answer(found, expected) {
        return true;
    }
    match found {
        Answer::Failed | Answer::Node(None) => is_made,
        _ => false,
    }
}

// The flushes of a call: that of the directory that is settled.
fn flushes_of(rt: &HostRuntime, step: Step<'_>) -> io::Result<Flushes> {
    match step {
        Step::Settle(dir) => {
            let dir = std::str::from_utf8(dir).unwrap_or("");
            let inode = inode_of(rt, IMAGE.on_disk(rt, dir)?.as_str())?;
            Ok(Flushes::NONE.with(inode))
        }
        _ => Ok(Flushes::NONE),
    }
}
