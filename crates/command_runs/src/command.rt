//! The commands.
ghost use Rattle.std.specs.Prelude.{◌≡◌};
ghost use Rattle.tree_face.specs.Devices.{states_in, states_left};
ghost use Rattle.command_runs.specs.Commands.{RunsCommand};
ghost use Rattle.command_status.specs.Status.{EndsWith};

use asking_runs::{run_lookup, run_print, run_resolve};
use command_status::{Status, put_fault_line};
use command_words::Command;
use layer_runs::run_layers;
use sample_runs::run_sample;
use script_runs::{run_batch, run_update};
use std::alloc::Global;
use tree_face::{Devices, Disk, Sink, Source, Store};
use update_runs::Updater;

/// Writes the fault line of invalid arguments, and returns their status.
pub fn refuse_arguments<O: Sink>(out: &mut O) -> Status
    ensures status { result ≡ Status.Usage }
    ensures line { EndsWith Status.Usage (O.state out.old) (O.state out.new) }
{
    put_fault_line(out, Status::Usage);
    Status::Usage
}

/// Runs a command.
///
/// `update` plans the links of the libraries in the manifest's tree and adds them to the manifest file. It writes the cache of the entries
/// to the cache file, the libraries' stamps to the auxiliary cache file, and a report to the output. `batch` reads a script from the
/// input, with edits of the tree and updates. `layers` does what `update` does, with the image that layers make. `print` writes the
/// entries of the cache. `lookup` writes the path that the loader takes from the cache for a name. `resolve` lists the libraries that
/// programs of the manifest's tree load. These three write text, or JSON if it is asked for. `sample` updates images of synthetic libraries
/// in memory.
///
/// Only `batch` reads the input. The statuses `Done`, `Missing`, `OutputFault` and `NoMemory` write no fault line, every other status does.
pub fn run_command<S: Store, D: Disk, I: Source, O: Sink>(
    alloc: Global,
    command: Command,
    devices: Devices<'_, S, D, I, O>,
) -> Status
    ensures runs { RunsCommand command result
        (states_in S.state D.state I.state O.state devices.entry) (states_left S.state D.state I.state O.state devices.exit) }
    ensures no_usage { result ≡ Status.Usage → ⊥ }
{
    let Devices {
        store,
        disk,
        source,
        sink,
    } = devices;
    match command {
        Command::Update { tag } => run_update(Updater { alloc, tag }, store, disk, sink),
        Command::Batch { tag } => run_batch(Updater { alloc, tag }, store, disk, source, sink),
        Command::Layers { keys } => run_layers(alloc, &keys, store, disk, sink),
        Command::Sample { n } => run_sample(alloc, n, sink),
        Command::Print { json } => run_print(alloc, json, disk, sink),
        Command::Lookup(asked) => run_lookup(alloc, &asked, disk, sink),
        Command::Resolve(asked) => run_resolve(alloc, asked, store, disk, sink),
    }
}
