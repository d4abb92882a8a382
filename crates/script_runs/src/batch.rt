//! The command `batch`.
ghost use Rattle.std.specs.Prelude.{◌≡◌};
ghost use Rattle.tree_face.specs.Devices as devices;
ghost use Rattle.script_runs.specs.Batch.{BatchRun, RunsInput, of_read};
ghost use Rattle.script_runs.specs.Run.{lines_of};
ghost use Rattle.script_runs.specs.Stored.{RunsStored};
ghost use Rattle.update_runs.specs.Update.{states};

use crate::lines::run_lines;
use command_status::{Status, put_fault_line};
use image_session::Session;
use mtree_manifest::MANIFEST_MAX;
use std::mem::forget;
use tree_face::{Disk, ReadFault, Sink, Source, Store, read_all};
use update_runs::Updater;

/// The most bytes of a script.
pub const SCRIPT_MAX: usize = MANIFEST_MAX;

// The status when the input can't be read to its end.
fn status_of(fault: ReadFault) -> Status
    ensures { result ≡ of_read fault }
{
    match fault {
        ReadFault::TooLong { taken } => Status::TooLong { taken },
        ReadFault::InputFault => Status::InputFault,
        ReadFault::NoMemory => Status::NoMemory,
    }
}

// Loads a session and runs the script.
fn load_and_run<S: Store, D: Disk, O: Sink>(
    by: Updater,
    text: &[u8],
    store: &mut S,
    disk: &mut D,
    sink: &mut O,
) -> Status
    ensures { RunsStored by.tag (lines_of text.now) result
        (states (S.state store.old) (D.state disk.old) (O.state sink.old)) (states (S.state store.new) (D.state disk.new) (O.state sink.new)) }
{
    let session = match Session::load(by.alloc, disk) {
        Ok(session) => session,
        Err(fault) => return Status::from(fault),
    };
    match run_lines(by, text, session, store, disk, sink) {
        Ok(left) => {
            // The process ends with the command, and the system takes all its memory at once.
            forget(left);
            Status::Done
        }
        Err(fault) => Status::from(fault),
    }
}

// The command up to its fault line.
fn batch<S: Store, D: Disk, I: Source, O: Sink>(
    by: Updater,
    store: &mut S,
    disk: &mut D,
    source: &mut I,
    sink: &mut O,
) -> Status
    ensures { RunsInput by.tag result (I.state source.old) (I.state source.new)
        (states (S.state store.old) (D.state disk.old) (O.state sink.old)) (states (S.state store.new) (D.state disk.new) (O.state sink.new)) }
{
    match read_all(by.alloc, source, SCRIPT_MAX) {
        Ok(text) => load_and_run(by, &text, store, disk, sink),
        Err(fault) => status_of(fault),
    }
}

/// Runs the command `batch`: reads the script from the input, loads the image, and does the script's lines.
pub fn run_batch<S: Store, D: Disk, I: Source, O: Sink>(
    by: Updater,
    store: &mut S,
    disk: &mut D,
    source: &mut I,
    sink: &mut O,
) -> Status
    ensures runs { BatchRun by.tag
        (devices.states (S.state store.old) (D.state disk.old) (I.state source.old) (O.state sink.old))
        (devices.states (S.state store.new) (D.state disk.new) (I.state source.new) (O.state sink.new))
        result }
    ensures no_usage { result ≡ Status.Usage → ⊥ }
{
    let status = batch(by, store, disk, source, sink);
    put_fault_line(sink, status);
    status
}
