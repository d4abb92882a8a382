//! The commands that begin with an option: `ldconfig -r ROOT`, `ldconfig -n DIR..`, `-p`, `--help` and `--version`.
use cache_answers::{print_file, print_in_root, print_text, print_usage};
use command_runs::Status;
use device_rules::RunId;
use diagnostics::{StartFault, VERSION};
use image_folder::HeldFile;
use root_jobs::{note_rejection, text_of};
use root_runs::run_options;
use root_words::{RootCommand, RootWordsFault, command_of};
use standard_streams::{Streams, or_out_of_memory};
use std::rt::Runtime;

/// Runs the command of these arguments, of which the first is an option, and returns its exit status.
pub fn run_root<R: Runtime + AllocGlobal + Streams>(
    rt: &R,
    id: RunId,
    words: &Vec<String>,
) -> Result<u8, StartFault>
where
    R::File: HeldFile,
{
    match command_of(rt.alloc(), words) {
        Ok(RootCommand::Help) => print_usage(rt),
        Ok(RootCommand::Version) => print_text(rt, VERSION),
        Ok(RootCommand::Print { root, cache }) => print_cache(
            rt,
            id,
            text_of(&root),
            text_of(&cache),
        ),
        Ok(RootCommand::Run(options)) => run_options(rt, id, &options),
        Err(RootWordsFault::NoMemory) => Err(StartFault::NoMemory),
        Err(fault) => {
            let _ = or_out_of_memory(rt, note_rejection(rt, &fault));
            Ok(Status::Usage.code())
        }
    }
}

// Prints the cache of the directory, or the file of this machine. One of the two is given.
fn print_cache<R: Runtime + AllocGlobal + Streams>(
    rt: &R,
    id: RunId,
    root: Option<&str>,
    cache: Option<&str>,
) -> Result<u8, StartFault>
where
    R::File: HeldFile,
{
    match (root, cache) {
        (Some(root), _) => print_in_root(rt, id, root, cache, false),
        (None, Some(cache)) => print_file(rt, id, cache),
        (None, None) => Ok(Status::Usage.code()),
    }
}
