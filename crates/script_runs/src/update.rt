//! The command `update`.
ghost use Rattle.std.specs.Prelude.{◌≡◌};
ghost use Rattle.tree_face.specs.Devices as devices;
ghost use Rattle.script_runs.specs.Stored.{RunsStored, one_update};
ghost use Rattle.script_runs.specs.UpdateCommand.{UpdateRun};
ghost use Rattle.tree_face.specs.Stream.{SourceState};
ghost use Rattle.update_runs.specs.Update.{states};

use command_status::{Status, put_fault_line};
use image_session::Session;
use std::mem::forget;
use tree_face::{Disk, Sink, Store};
use update_runs::{Updater, update_once};

// Loads a session and updates it once, with its report but no fault line.
fn update<S: Store, D: Disk, O: Sink>(
    by: Updater,
    store: &mut S,
    disk: &mut D,
    sink: &mut O,
) -> Status
    ensures { RunsStored by.tag one_update result
        (states (S.state store.old) (D.state disk.old) (O.state sink.old)) (states (S.state store.new) (D.state disk.new) (O.state sink.new)) }
{
    let session = match Session::load(by.alloc, disk) {
        Ok(session) => session,
        Err(fault) => return Status::from(fault),
    };
    match update_once(by, session, store, disk, sink) {
        Ok(updated) => {
            // The process ends with the command, and the system takes all its memory at once.
            forget(updated);
            Status::Done
        }
        Err(fault) => Status::from(fault),
    }
}

/// Runs the command `update`, which does what a script of the single line `update` does. The source may be in any state, because nothing is
/// read from it.
pub fn run_update<S: Store, D: Disk, O: Sink>(
    by: Updater,
    store: &mut S,
    disk: &mut D,
    sink: &mut O,
) -> Status
    ensures runs { (source : SourceState) → UpdateRun by.tag
        (devices.states (S.state store.old) (D.state disk.old) source (O.state sink.old))
        (devices.states (S.state store.new) (D.state disk.new) source (O.state sink.new))
        result }
    ensures no_usage { result ≡ Status.Usage → ⊥ }
{
    let status = update(by, store, disk, sink);
    put_fault_line(sink, status);
    status
}
