//! An update of a directory, and a check of what it would change, to the status with which each ends.
ghost use Rattle.std.specs.Prelude.{Ok, Err};
ghost use Rattle.root_answers.specs.Check.{CheckEnds};
ghost use Rattle.root_answers.specs.Ending.{EndsCheck, EndsUpdate};
ghost use Rattle.root_answers.specs.Run.{CheckCompletes, UpdateCompletes, run_states};
ghost use Rattle.root_answers.specs.Update.{UpdateEnds};
ghost use Rattle.root_update.specs.Made.{root_states};
ghost use Rattle.root_update.specs.Repair.{IfMade, RepairsRoot};

use crate::answers::{Shown, answer_check, answer_update};
use command_status::Status;
use root_folder::Folder;
use root_update::{RootChanges, RootFault, RootParts, Updated, check_root, status_of, update_root};
use std::alloc::Global;
use tree_face::{Disk, Sink, Store, Tag};

/// What a run on a directory is asked for.
#[derive(Clone, Copy)]
pub struct RootAsked<'p, 'f> {
    pub parts: &'p RootParts,
    pub shown: Shown<'f>,
    /// The tag of its temporary files. A check makes none.
    pub tag: Tag,
}

/// How an update of a directory ended.
#[derive(Drop)]
pub struct UpdateRun {
    pub status: Status,
    /// What it did, or why it failed.
    pub outcome: Result<Updated, RootFault>,
}

/// How a check of a directory ended.
#[derive(Drop)]
pub struct CheckRun {
    pub status: Status,
    /// What an update would change, or why the check failed.
    pub outcome: Result<RootChanges, RootFault>,
}

// The status of an update, and what `-v` asks for.
fn end_update<O: Sink>(
    alloc: Global,
    shown: Shown<'_>,
    outcome: &Result<Updated, RootFault>,
    output: &mut O,
) -> Status
    ensures { EndsUpdate shown.entry outcome.now result (O.state output.old) (O.state output.new) }
{
    let updated = match outcome {
        Ok(updated) => updated,
        Err(fault) => return status_of(fault),
    };
    match answer_update(
        alloc,
        shown,
        &updated.looked,
        updated.links.as_slice(),
        output,
    ) {
        Ok(status) => status,
        Err(_) => Status::NoMemory,
    }
}

// The status of a check, and its lines.
fn end_check<O: Sink>(
    alloc: Global,
    shown: Shown<'_>,
    outcome: &Result<RootChanges, RootFault>,
    output: &mut O,
) -> Status
    ensures { EndsCheck shown.entry outcome.now result (O.state output.old) (O.state output.new) }
{
    let changes = match outcome {
        Ok(changes) => changes,
        Err(fault) => return status_of(fault),
    };
    match answer_check(alloc, shown, changes, output) {
        Ok(status) => status,
        Err(_) => Status::NoMemory,
    }
}

/// Updates a directory without a manifest, and then writes what `-v` asks for.
pub fn run_update<F: Folder, S: Store, D: Disk, O: Sink>(
    alloc: Global,
    asked: &RootAsked<'_, '_>,
    folder: &mut F,
    store: &mut S,
    disk: &mut D,
    output: &mut O,
) -> UpdateRun
    ensures ends { UpdateEnds asked.now result.status
        (run_states (F.state folder.old) (S.state store.old) (D.state disk.old) (O.state output.old))
        (run_states (F.state folder.new) (S.state store.new) (D.state disk.new) (O.state output.new)) }
    ensures completes { UpdateCompletes asked.now.parts.now result.status
        (run_states (F.state folder.old) (S.state store.old) (D.state disk.old) (O.state output.old))
        (run_states (F.state folder.new) (S.state store.new) (D.state disk.new) (O.state output.new)) }
    ensures repairs { IfMade result.outcome (RepairsRoot asked.now.parts.now
        (root_states (F.state folder.old) (S.state store.old) (D.state disk.old)) (root_states (F.state folder.new) (S.state store.new) (D.state disk.new))) }
    ensures ending { EndsUpdate asked.now.shown result.outcome result.status (O.state output.old) (O.state output.new) }
{
    let outcome = update_root(alloc, asked.parts, folder, store, disk, asked.tag);
    let status = end_update(alloc, asked.shown, &outcome, output);
    UpdateRun { status, outcome }
}

/// Lists what an update of a directory would change, and writes nothing else. The status is `Missing` if anything would change.
pub fn run_check<F: Folder, S: Store, D: Disk, O: Sink>(
    alloc: Global,
    asked: &RootAsked<'_, '_>,
    folder: &mut F,
    store: &mut S,
    disk: &mut D,
    output: &mut O,
) -> CheckRun
    ensures ends { CheckEnds asked.now result.status
        (run_states (F.state folder.old) (S.state store.old) (D.state disk.old) (O.state output.old))
        (run_states (F.state folder.new) (S.state store.new) (D.state disk.new) (O.state output.new)) }
    ensures completes { CheckCompletes asked.now.parts.now result.status
        (run_states (F.state folder.old) (S.state store.old) (D.state disk.old) (O.state output.old))
        (run_states (F.state folder.new) (S.state store.new) (D.state disk.new) (O.state output.new)) }
    ensures ending { EndsCheck asked.now.shown result.outcome result.status (O.state output.old) (O.state output.new) }
{
    let outcome = check_root(alloc, asked.parts, folder, store, disk);
    let status = end_check(alloc, asked.shown, &outcome, output);
    CheckRun { status, outcome }
}
