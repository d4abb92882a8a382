//! `ldconfig` for images: keeps the loader's cache of a directory that has a manifest.
#![tactic(auto)]

mod asking;
mod root;

use asking::{is_files, run_asking};
use cache_answers::{Sought, note_other_abis, print_text};
use command_runs::Status;
use command_words::{Command, help_of};
use device_rules::{RunId, SlotPaths};
use diagnostics::{
    EDITS_NOT_WRITTEN, LIST_LACKS, StartFault, USAGE, advice, is_part_of_list, note_long_script,
    note_manifest, note_names, note_program, note_script, note_size, note_update, note_words,
    only_path, usage_of, written_before,
};
use image_folder::HeldFile;
use ldconfig_cli::{Arguments, run_on};
use lib_types::{NoMemory, Text};
use root::run_root;
use root_jobs::word_of;
use root_words::is_root_command;
use standard_streams::{OUT_OF_MEMORY, Streams, or_out_of_memory, write_error_line, write_text};
use std::alloc::{AllocError, Global};
use std::io::{Error, ErrorKind};
use std::process::ExitCode;
use std::random::RandomSource;
use std::rt::Runtime;
use std::{env, io, process};
use tree_face::Devices;
use tree_real::{FolderDisk, FolderStore, StdinSource, StdoutSink};

// Why no command was run. The error and its subject are written on the error output. `main` reports out of memory.
fn fault_of<R: Runtime + Streams>(rt: &R, name: &str, error: io::Error) -> StartFault {
    let fault = StartFault::from(error);
    if fault == StartFault::Other {
        write_error_line(rt, name, "", error);
    }
    fault
}

// The arguments after the program's name.
fn words<R: Runtime + AllocGlobal>(rt: &R) -> io::Result<Vec<String>> {
    let mut args = match env::args(rt) {
        Ok(args) => args,
        Err(error) if error.kind() == ErrorKind::InvalidData => {
            return Err(Error::new(error.kind(), "one isn't UTF-8 text"));
        }
        Err(error) => return Err(error),
    };
    let _program = args.next();
    Ok(args.collect(rt.alloc())?)
}

// The numbers that make this run's temporary files unique to it.
fn run_id<R: Runtime + RandomSource>(rt: &R, process: u32) -> io::Result<RunId> {
    let mut bytes = [0u8; 8];
    rt.fill_bytes(&mut bytes)?;
    Ok(RunId {
        process,
        random: u64::from_le_bytes(bytes),
    })
}

// Explains the end of a command on the error output.
fn explain<R: Runtime + AllocGlobal + Streams>(
    rt: &R,
    status: Status,
    store: &FolderStore<R>,
    disk: &mut FolderDisk<R>,
    input: &StdinSource<R>,
    only: Option<&Text>,
) -> io::Result<()>
where
    R::File: HeldFile,
{
    let written = disk.written();
    if written.cache && !written.searchable {
        // If a line can't be written, the others still say how the command ended.
        let _ = note_names(rt, disk);
    }
    if status == Status::Done && input.ends_in_edits() {
        write_text(rt, EDITS_NOT_WRITTEN)?;
    }
    match status {
        Status::Done if written.cache => note_update(rt, store, disk),
        Status::BadManifest(fault) => {
            note_size(rt, status, written.manifest_length)?;
            note_manifest(rt, disk, fault)
        }
        Status::BadScript { line, kind } => note_script(rt, input, line, kind),
        Status::TooLong { .. } => note_long_script(rt),
        Status::TooMany { .. } | Status::TooLarge { .. } => note_size(rt, status, None),
        Status::NoProgram | Status::BadProgram(_) => note_program(rt, status, only),
        Status::OutputFault => say(rt, written_before(written.manifest, written.cache)),
        Status::Usage => say_usage(rt),
        _ => say(rt, advice(status)),
    }
}

fn say<R: Streams>(rt: &R, text: Option<&str>) -> io::Result<()> {
    match text {
        Some(text) => write_text(rt, text),
        None => Ok(()),
    }
}

fn say_usage<R: Streams>(rt: &R) -> io::Result<()> {
    for part in USAGE {
        write_text(rt, part)?;
    }
    Ok(())
}

// Runs the command of the arguments, and returns its exit status.
fn run<R: Runtime + AllocGlobal + RandomSource + Streams>(
    rt: &R,
    process: u32,
) -> Result<u8, StartFault>
where
    R::File: HeldFile,
{
    let words = match words(rt) {
        Ok(words) => words,
        Err(error) => return Err(fault_of(rt, "arguments", error)),
    };
    let id = match run_id(rt, process) {
        Ok(id) => id,
        Err(error) => return Err(fault_of(rt, "random number", error)),
    };
    if is_root_command(&words) {
        run_root(rt, id, &words)
    } else if let Some(verb) = help_of(&words) {
        print_text(rt, usage_of(verb))
    } else {
        run_arguments(rt, id, &words)
    }
}

// Runs the command of these arguments, of which the first is not an option, and returns its exit status.
fn run_arguments<R: Runtime + AllocGlobal + Streams>(
    rt: &R,
    id: RunId,
    words: &Vec<String>,
) -> Result<u8, StartFault>
where
    R::File: HeldFile,
{
    let arguments = Arguments::read(rt.alloc(), words)?;
    let root = root_of(rt, &arguments)?;
    match root {
        Some(root) => run_asking(rt, id, root.as_str(), arguments.into_command()),
        None => run_here(rt, id, arguments),
    }
}

// The directory that the command reads, if the arguments name one.
fn root_of<R: Runtime + AllocGlobal>(
    rt: &R,
    arguments: &Arguments<'_>,
) -> Result<Option<String>, AllocError> {
    match arguments.root() {
        Some(root) => Ok(Some(String::from_str(rt.alloc(), word_of(root))?)),
        None => Ok(None),
    }
}

// Runs a command on the image in the working directory, and returns its exit status.
fn run_here<R: Runtime + AllocGlobal + Streams>(
    rt: &R,
    id: RunId,
    arguments: Arguments<'_>,
) -> Result<u8, StartFault>
where
    R::File: HeldFile,
{
    let mut store = FolderStore::new(rt.clone()?, ".")?;
    let mut disk = disk_of(rt, id, arguments.command())?;
    let mut input = StdinSource::new(rt.clone()?);
    let mut output = StdoutSink::new(rt.clone()?);
    let is_list = is_list(arguments.command());
    let sought = Sought::of(rt.alloc(), arguments.command())?;
    let only = only_path_of(rt.alloc(), arguments.command())?;
    if let Some(fault) = arguments.fault() {
        let _ = or_out_of_memory(rt, note_words(rt, arguments.first(), fault));
    }
    let devices = Devices {
        store: &mut store,
        disk: &mut disk,
        source: &mut input,
        sink: &mut output,
    };
    let status = run_on(rt.alloc(), arguments, devices);
    // If a line can't be written, nothing changes.
    let _ = match &sought {
        Some(sought) if status == Status::Missing => note_other_abis(rt, None, &mut disk, sought),
        _ if is_list && is_part_of_list(status) => write_text(rt, LIST_LACKS),
        _ => or_out_of_memory(
            rt,
            explain(rt, status, &store, &mut disk, &input, only.as_ref()),
        ),
    };
    Ok(status.code())
}

// The path whose libraries are listed, if the command lists those of one path alone.
fn only_path_of(alloc: Global, command: Option<&Command>) -> Result<Option<Text>, NoMemory> {
    match command {
        Some(Command::Resolve(asked)) => only_path(alloc, asked),
        _ => Ok(None),
    }
}

// Whether the command writes a list of files.
fn is_list(command: Option<&Command>) -> bool {
    match command {
        Some(Command::Resolve(asked)) => is_files(asked.form),
        _ => false,
    }
}

// The files of the image in the working directory. A command that writes them works under the lock on that directory.
fn disk_of<R: Runtime>(
    rt: &R,
    id: RunId,
    command: Option<&Command>,
) -> Result<FolderDisk<R>, StartFault> {
    let (own, paths) = (rt.clone()?, SlotPaths::usual());
    match command {
        Some(Command::Update { .. } | Command::Batch { .. } | Command::Layers { .. }) => {
            Ok(FolderDisk::locking(own, ".", id, paths)?)
        }
        _ => Ok(FolderDisk::new(own, ".", id, paths, None)?),
    }
}

fn main(rt: HostRuntime) -> ExitCode {
    let process = process::id(rt.process());
    match run(&rt, process) {
        Ok(code) => ExitCode::from(code),
        Err(fault) => {
            if fault == StartFault::NoMemory {
                let _ = say(&rt, Some(OUT_OF_MEMORY));
            }
            ExitCode::from(fault.code())
        }
    }
}
