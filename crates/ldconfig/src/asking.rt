//! The commands that only read a directory: `print`, `lookup` and `resolve` with `-r ROOT`.
use cache_answers::{look_up, note_asked, print_in_root};
use command_runs::Status;
use command_words::{Command, Form, Resolve};
use device_rules::{RunId, SlotPaths};
use diagnostics::{LIST_LACKS, StartFault, is_part_of_list, note_program, only_path};
use image_folder::HeldFile;
use lib_types::Text;
use root_asking::resolve_root;
use root_jobs::note_fault;
use root_real::RootFolder;
use standard_streams::{Streams, write_text};
use std::io;
use std::rt::Runtime;
use tree_real::{FolderDisk, FolderStore, StdoutSink};

/// Runs a command on the directory `root`, and returns its exit status.
pub fn run_asking<R: Runtime + AllocGlobal + Streams>(
    rt: &R,
    id: RunId,
    root: &str,
    command: Option<Command>,
) -> Result<u8, StartFault>
where
    R::File: HeldFile,
{
    match command {
        Some(Command::Print { json }) => print_in_root(rt, id, root, None, json),
        Some(Command::Lookup(asked)) => look_up(rt, id, root, &asked),
        Some(Command::Resolve(asked)) => resolve(rt, id, root, asked),
        // No other command has the option.
        _ => Ok(Status::Usage.code()),
    }
}

fn resolve<R: Runtime + AllocGlobal + Streams>(
    rt: &R,
    id: RunId,
    root: &str,
    asked: Resolve,
) -> Result<u8, StartFault>
where
    R::File: HeldFile,
{
    let (form, only) = (asked.form, only_path(rt.alloc(), &asked)?);
    let mut folder = RootFolder::new(rt.clone()?, root, id)?;
    let mut store = FolderStore::new(rt.clone()?, root)?;
    let mut disk = FolderDisk::new(rt.clone()?, root, id, SlotPaths::usual(), None)?;
    let mut output = StdoutSink::new(rt.clone()?);
    let status = resolve_root(
        rt.alloc(),
        asked,
        &mut folder,
        &mut store,
        &mut disk,
        &mut output,
    );
    let _ = note_resolved(rt, root, disk.cache_file(), form, only.as_ref(), status);
    Ok(status.code())
}

/// Whether the answer is a list of files.
pub fn is_files(form: Form) -> bool {
    match form {
        Form::Files { .. } => true,
        Form::Listing | Form::Json | Form::Tree => false,
    }
}

fn note_resolved<R: Runtime + Streams>(
    rt: &R,
    root: &str,
    cache: &str,
    form: Form,
    only: Option<&Text>,
    status: Status,
) -> io::Result<()> {
    if is_files(form) && is_part_of_list(status) {
        return write_text(rt, LIST_LACKS);
    }
    match status {
        Status::NoProgram | Status::BadProgram(_) => note_program(rt, status, only),
        Status::TooLarge { .. } => note_fault(rt, root, status),
        _ => note_asked(rt, Some(root), cache, status),
    }
}
