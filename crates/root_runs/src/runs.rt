//! The directories that are updated, and with which options.
ghost use Rattle.std.specs.Prelude.{◌≡◌, ◌↔◌, ◌⊎◌, IsTrue, true};

use crate::update::run_job;
use command_status::Status;
use device_rules::{RunId, SlotPaths};
use diagnostics::StartFault;
use image_folder::{DirLock, HeldFile, LockFault};
use lib_types::Texts;
use root_jobs::{
    Aux, Kept, Target, job_of, no_cache_path, note_no_aux, paths_of, text_of, word_of,
};
use root_words::RootOptions;
use standard_streams::Streams;
use std::rt::Runtime;
use tree_face::Slot;

/// Updates ROOT, or the directories of `-n`. One of the two is given. Returns the exit status.
pub fn run_options<R: Runtime + AllocGlobal + Streams>(
    rt: &R,
    id: RunId,
    options: &RootOptions,
) -> Result<u8, StartFault>
where
    R::File: HeldFile,
{
    match (text_of(&options.root), &options.dirs) {
        (Some(root), _) => run_image(rt, id, options, root),
        (None, Some(dirs)) => run_dirs(rt, id, options, dirs),
        (None, None) => Ok(Status::Usage.code()),
    }
}

// Updates the image in the directory ROOT.
fn run_image<R: Runtime + AllocGlobal + Streams>(
    rt: &R,
    id: RunId,
    options: &RootOptions,
    root: &str,
) -> Result<u8, StartFault>
where
    R::File: HeldFile,
{
    let target = Target {
        dir: root,
        is_of_machine: false,
    };
    let cache = text_of(&options.cache);
    match paths_of(rt, cache)? {
        Some(paths) => run_at(rt, id, options, target, paths),
        None => no_cache_path(rt, cache.unwrap_or("")),
    }
}

// Updates directories of this machine in their order, until one can't be updated.
fn run_dirs<R: Runtime + AllocGlobal + Streams>(
    rt: &R,
    id: RunId,
    options: &RootOptions,
    dirs: &Texts,
) -> Result<u8, StartFault>
where
    R::File: HeldFile,
{
    let mut status = Status::Done.code();
    for dir in dirs.as_slice() {
        let target = Target {
            dir: word_of(dir.as_bytes()),
            is_of_machine: true,
        };
        let found = run_at(rt, id, options, target, SlotPaths::usual())?;
        if !goes_on(options, found) {
            return Ok(found);
        }
        status = status.max(found);
    }
    Ok(status)
}

// Whether the next directory is updated after one that ended with this status. A check lists the changes of each directory.
fn goes_on(options: &RootOptions, status: u8) -> bool
    ensures { IsTrue result ↔ (status ≡ 0 ⊎ ((options.now.check ≡ true) × (status ≡ 1))) }
{
    status == Status::Done.code() || (options.check && status == Status::Missing.code())
}

// Runs what the options ask for on a directory, with its files at these paths. An update takes the lock on the directory before it looks at
// anything, so that no other run works on it meanwhile. A check takes no lock.
fn run_at<R: Runtime + AllocGlobal + Streams>(
    rt: &R,
    id: RunId,
    options: &RootOptions,
    target: Target<'_>,
    paths: SlotPaths,
) -> Result<u8, StartFault>
where
    R::File: HeldFile,
{
    if options.check {
        return run_locked(rt, id, options, target, paths);
    }
    let _lock = match DirLock::take(rt, target.dir) {
        Ok(lock) => lock,
        Err(LockFault::NoRoot) => return Ok(Status::StoreFault.code()),
        Err(LockFault::NotTaken) => return Ok(Status::DiskFault.code()),
    };
    run_locked(rt, id, options, target, paths)
}

// The same after the lock, if one is needed, is taken.
fn run_locked<R: Runtime + AllocGlobal + Streams>(
    rt: &R,
    id: RunId,
    options: &RootOptions,
    target: Target<'_>,
    paths: SlotPaths,
) -> Result<u8, StartFault>
where
    R::File: HeldFile,
{
    let given = text_of(&options.aux);
    let kept = Kept {
        root: target.dir,
        cache: paths.file_of(Slot::Cache),
        conf: text_of(&options.conf).unwrap_or("etc/ld.so.conf"),
    };
    match Aux::find(rt, given, kept)? {
        Some(aux) => run_job(rt, id, &job_of(rt.alloc(), options, target, aux)?, paths),
        None => {
            let _ = note_no_aux(rt, given);
            Ok(Status::Usage.code())
        }
    }
}
