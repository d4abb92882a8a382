//! Files that change while they are read, and the auxiliary cache.
ghost use Rattle.std.specs.Prelude.{IsSome};

use crate::image::{ROOT, file_of};
use crate::turns::no_memory;
use device_rules::identity_of;
use image_folder::ImageFolder;
use std::{fs, io};
use tree_face::Store;
use tree_real::FolderStore;
use trial_devices::{Manner, Report, Trial};

const KEY: &str = "usr/lib/changing";

const BEFORE: &[u8] = b"the bytes that were there when it was opened";

// What happens to a file after it was opened.
#[derive(Clone, Copy, PartialEq, Eq)]
enum Change {
    // Another file takes its place.
    Replaced,
    // It becomes shorter.
    Cut,
    // It becomes longer.
    Grown,
    // It is removed.
    Removed,
}

const CHANGES: [Change; 4] = [
    Change::Replaced,
    Change::Cut,
    Change::Grown,
    Change::Removed,
];

/// Changes a file between its opening and its reading, and opens the auxiliary cache as a file of the image.
pub fn try_changes(rt: &HostRuntime, trial: &Trial, report: &mut Report<'_>) -> io::Result<()> {
    trial.plan().move_in(Manner::WHOLE);
    report.begin("files that change after they were opened");
    let mut number = 0u64;
    for change in CHANGES {
        report.go_to(number);
        number = number.saturating_add(1);
        try_change(rt, trial, change, report)?;
    }
    report.end(CHANGES.len() as u64)?;
    report.begin("a file that is the auxiliary cache");
    try_aux(rt, trial, report)?;
    report.end(1)
}

fn try_change(
    rt: &HostRuntime,
    trial: &Trial,
    change: Change,
    report: &mut Report<'_>,
) -> io::Result<()> {
    let path = file_of(rt, KEY)?;
    let _ = fs::remove_file(rt, path.as_str());
    fs::write(rt, path.as_str(), BEFORE)?;
    let mut real = FolderStore::new(trial.clone()?, ROOT).map_err(|_| no_memory())?;
    let opened = real.begin(KEY.as_bytes());
    report.expect(opened == Ok(BEFORE.len() as u64), "begin: another length");
    make_change(rt, path.as_str(), change)?;
    if opened.is_ok() {
        read_changed(trial, &mut real, change, report);
    }
    Ok(())
}

fn make_change(rt: &HostRuntime, path: &str, change: Change) -> io::Result<()> {
    match change {
        Change::Replaced => {
            fs::write(rt, "other", "other bytes")?;
            fs::rename(rt, "other", path)
        }
        Change::Cut => fs::write(rt, path, "short"),
        Change::Grown => {
            let mut bytes = Vec::from_slice(rt.alloc(), BEFORE)?;
            bytes.extend_from_slice(b", and more")?;
            fs::write(rt, path, bytes)
        }
        Change::Removed => fs::remove_file(rt, path),
    }
}

// The open file keeps its bytes and its length. If it became shorter, this is an error.
fn read_changed<S: Store>(trial: &Trial, real: &mut S, change: Change, report: &mut Report<'_>)
    requires { IsSome (S.state real.old).size }
{
    let mut bytes = [0u8; 100];
    let count = real.read_at(0, &mut bytes);
    let lines = trial.plan().take_lines();
    if change == Change::Cut {
        report.expect(count.is_err(), "read_at: a shorter file is not an error");
        report.expect(lines == 1, "read_at: not one line for a shorter file");
        return;
    }
    report.expect(count == Ok(BEFORE.len()), "read_at: another length");
    report.expect(bytes.starts_with(BEFORE), "read_at: other bytes");
    report.expect(lines == 0, "read_at: a line without an error");
}

fn try_aux(rt: &HostRuntime, trial: &Trial, report: &mut Report<'_>) -> io::Result<()> {
    let aux = identity_of(&fs::metadata(rt, file_of(rt, "top")?.as_str())?);
    let image = ImageFolder::new(trial.clone()?, ROOT).map_err(|_| no_memory())?;
    let mut real = FolderStore::without(image, Some(aux));
    report.expect(real.begin(b"etc/one") == Ok(1), "begin: another result");
    report.expect(
        !real.has_met_aux(),
        "begin: another file taken for the auxiliary cache",
    );
    report.expect(
        real.has_read_conf(),
        "begin: a conf file taken for a library",
    );
    report.expect(
        real.begin(b"top").is_err(),
        "begin: opens the auxiliary cache",
    );
    report.expect(
        real.has_met_aux(),
        "begin: does not know the auxiliary cache",
    );
    report.expect(
        trial.plan().take_lines() == 1,
        "begin: not one line for its error",
    );
    Ok(())
}
