//! The command `layers`.
ghost use Rattle.std.specs.Prelude.{◌≡◌};
ghost use Rattle.tree_face.specs.Devices as devices;
ghost use Rattle.tree_face.specs.Stream.{SourceState};
ghost use Rattle.layer_runs.specs.Command.{LayersRun};
ghost use Rattle.layer_runs.specs.Run.{RunsAdopted, RunsLayers};
ghost use Rattle.update_runs.specs.Update.{states};

use crate::union::read_image;
use command_status::{Status, put_fault_line};
use image_session::Session;
use lib_types::Texts;
use std::alloc::Global;
use std::mem::forget;
use tree_face::{Disk, Sink, Store, Tag, Tree};
use update_runs::{Updater, update_once};

// Updates the image of this tree once.
fn update<S: Store, D: Disk, O: Sink>(
    alloc: Global,
    tree: Tree,
    store: &mut S,
    disk: &mut D,
    sink: &mut O,
) -> Status
    ensures { RunsAdopted tree result
        (states (S.state store.old) (D.state disk.old) (O.state sink.old)) (states (S.state store.new) (D.state disk.new) (O.state sink.new)) }
{
    let session = match Session::adopt(alloc, disk, tree) {
        Ok(session) => session,
        Err(fault) => return Status::from(fault),
    };
    let by = Updater { alloc, tag: Tag(0) };
    match update_once(by, session, store, disk, sink) {
        Ok(updated) => {
            // The process ends with the command, and the system takes all its memory at once.
            forget(updated);
            Status::Done
        }
        Err(fault) => Status::from(fault),
    }
}

// The command up to its fault line.
fn layers<S: Store, D: Disk, O: Sink>(
    alloc: Global,
    keys: &Texts,
    store: &mut S,
    disk: &mut D,
    sink: &mut O,
) -> Status
    ensures { RunsLayers keys.now result
        (states (S.state store.old) (D.state disk.old) (O.state sink.old)) (states (S.state store.new) (D.state disk.new) (O.state sink.new)) }
{
    match read_image(alloc, keys, store) {
        Ok(tree) => update(alloc, tree, store, disk, sink),
        Err(fault) => Status::from(fault),
    }
}

/// Runs the command `layers`: reads the manifests of the layers, and updates the image that the layers make. The source may be in any
/// state, because nothing is read from it.
pub fn run_layers<S: Store, D: Disk, O: Sink>(
    alloc: Global,
    keys: &Texts,
    store: &mut S,
    disk: &mut D,
    sink: &mut O,
) -> Status
    ensures runs { (source : SourceState) → LayersRun keys.now
        (devices.states (S.state store.old) (D.state disk.old) source (O.state sink.old))
        (devices.states (S.state store.new) (D.state disk.new) source (O.state sink.new))
        result }
    ensures no_usage { result ≡ Status.Usage → ⊥ }
{
    let status = layers(alloc, keys, store, disk, sink);
    put_fault_line(sink, status);
    status
}
