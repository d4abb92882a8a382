//! The top call.
ghost use Rattle.std.specs.Prelude.{◌≡◌};
ghost use Rattle.command_words.specs.Words.{command_in};
ghost use Rattle.tree_face.specs.Devices.{states, states_in, states_left};
ghost use Rattle.ldconfig_cli.specs.Laws.{UpdateLaws};
ghost use Rattle.ldconfig_cli.specs.Runs.{Runs, RunsArguments};

use crate::arguments::Arguments;
use command_runs::{Status, refuse_arguments, run_command};
use command_words::Command;
use std::alloc::Global;
use tree_face::{Devices, Disk, Sink, Source, Store};

// Runs a command, or rejects arguments that are not a command.
fn run_or_refuse<S: Store, D: Disk, I: Source, O: Sink>(
    alloc: Global,
    command: Option<Command>,
    store: &mut S,
    disk: &mut D,
    source: &mut I,
    sink: &mut O,
) -> Status
    ensures { RunsArguments command result
        (states (S.state store.old) (D.state disk.old) (I.state source.old) (O.state sink.old))
        (states (S.state store.new) (D.state disk.new) (I.state source.new) (O.state sink.new)) }
{
    match command {
        Some(command) => run_command(
            alloc,
            command,
            Devices {
                store,
                disk,
                source,
                sink,
            },
        ),
        None => refuse_arguments(sink),
    }
}

/// Runs the command of arguments that were already read, on devices that were made for it.
///
/// Arguments that are not a command are rejected: only the fault line of `Usage` is written, and nothing is read.
pub fn run_on<S: Store, D: Disk, I: Source, O: Sink>(
    alloc: Global,
    arguments: Arguments<'_>,
    devices: Devices<'_, S, D, I, O>,
) -> Status
    ensures runs { RunsArguments (command_in arguments.entry) result
        (states_in S.state D.state I.state O.state devices.entry) (states_left S.state D.state I.state O.state devices.exit) }
    ensures laws { UpdateLaws }
{
    let Devices {
        store,
        disk,
        source,
        sink,
    } = devices;
    run_or_refuse(alloc, arguments.into_command(), store, disk, source, sink)
}

/// Runs the command of these arguments, which don't include the program's name.
///
/// Without arguments it is `update`. Arguments that are not a command are rejected: only the fault line of `Usage` is written, and nothing
/// is read.
pub fn run<S: Store, D: Disk, I: Source, O: Sink>(
    alloc: Global,
    words: &Vec<String>,
    store: &mut S,
    disk: &mut D,
    input: &mut I,
    out: &mut O,
) -> Status
    ensures runs { Runs S.state D.state I.state O.state words.now result
        (store.old, (disk.old, (input.old, out.old))) (store.new, (disk.new, (input.new, out.new))) }
    ensures laws { UpdateLaws }
{
    match Arguments::read(alloc, words) {
        Ok(arguments) => run_on(
            alloc,
            arguments,
            Devices {
                store,
                disk,
                source: input,
                sink: out,
            },
        ),
        Err(_) => Status::NoMemory,
    }
}
