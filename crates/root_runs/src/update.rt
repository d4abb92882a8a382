//! One update of a directory, or a check of what it would change.
use command_status::Status;
use device_rules::{RunId, SlotPaths};
use diagnostics::{StartFault, note_library_dirs};
use image_folder::{HeldFile, ImageFolder};
use lib_types::Text;
use root_answers::{RootAsked, Shown, run_check, run_update};
use root_jobs::{Job, note_fault, note_no_aux, note_report, note_root};
use root_real::RootFolder;
use root_tree::read_tree;
use standard_streams::{OUT_OF_MEMORY, Streams, write_text};
use std::io;
use std::rt::Runtime;
use tree_face::{Slot, Tag};
use tree_real::{FolderDisk, FolderStore, StdoutSink};

/// Runs an update, or a check of what it would change. Returns the exit status.
pub fn run_job<R: Runtime + AllocGlobal + Streams>(
    rt: &R,
    id: RunId,
    job: &Job<'_, '_>,
    paths: SlotPaths,
) -> Result<u8, StartFault>
where
    R::File: HeldFile,
{
    let mut devices = Devices {
        folder: folder_of(rt, id, job)?,
        store: store_of(rt, job)?,
        disk: disk_of(rt, id, job, paths)?,
    };
    if job.is_check {
        check(rt, job, &mut devices)
    } else {
        update(rt, job, &mut devices)
    }
}

// What an update works on: the directory's tree, its files, and the caches.
#[derive(Drop)]
struct Devices<R: Runtime> {
    folder: RootFolder<R>,
    store: FolderStore<R>,
    disk: FolderDisk<R>,
}

fn folder_of<R: Runtime>(
    rt: &R,
    id: RunId,
    job: &Job<'_, '_>,
) -> Result<RootFolder<R>, StartFault> {
    let own = rt.clone()?;
    if job.target.is_of_machine {
        Ok(RootFolder::of_libraries(own, job.target.dir, id)?)
    } else {
        Ok(RootFolder::new(own, job.target.dir, id)?)
    }
}

// The auxiliary cache is none of the files that the update reads.
fn store_of<R: Runtime>(rt: &R, job: &Job<'_, '_>) -> Result<FolderStore<R>, StartFault> {
    let own = rt.clone()?;
    let image = if job.target.is_of_machine {
        ImageFolder::of_machine(own, job.target.dir)?
    } else {
        ImageFolder::new(own, job.target.dir)?
    };
    Ok(FolderStore::without(image, job.aux.identity()))
}

// The cache and the auxiliary cache.
fn disk_of<R: Runtime + AllocGlobal>(
    rt: &R,
    id: RunId,
    job: &Job<'_, '_>,
    paths: SlotPaths,
) -> Result<FolderDisk<R>, StartFault> {
    let own = rt.clone()?;
    let aux = job.aux.slot(rt, id)?;
    Ok(FolderDisk::new(own, job.target.dir, id, paths, aux)?)
}

// What the job asks for. The lines of a check name the cache file.
fn asked_of<'s>(job: &'s Job<'_, '_>, cache: &'s [u8]) -> RootAsked<'s, 's> {
    RootAsked {
        parts: &job.parts,
        shown: Shown {
            front: job.target.front().as_bytes(),
            verbose: job.verbose,
            cache,
        },
        tag: Tag(0),
    }
}

// The exit status of a run that didn't fail. The caller reports out of memory.
fn code_of(status: Status) -> Result<u8, StartFault> {
    match status {
        Status::NoMemory => Err(StartFault::NoMemory),
        status => Ok(status.code()),
    }
}

// Lists what an update would change. If anything would change, the exit status is that of `Missing`.
fn check<R: Runtime + AllocGlobal + Streams>(
    rt: &R,
    job: &Job<'_, '_>,
    devices: &mut Devices<R>,
) -> Result<u8, StartFault>
where
    R::File: HeldFile,
{
    let Devices {
        folder,
        store,
        disk,
    } = devices;
    let mut output = StdoutSink::new(rt.clone()?);
    let cache = Text::copy_of(rt.alloc(), disk.cache_file().as_bytes())?;
    let asked = asked_of(job, cache.as_bytes());
    let run = run_check(rt.alloc(), &asked, folder, store, disk, &mut output);
    match &run.outcome {
        Ok(changes) => {
            // If a line can't be written, nothing changes.
            let _ = note_report(rt, job, &changes.report, &changes.looked.conf, store);
            code_of(run.status)
        }
        Err(_) => Ok(fail(rt, job, run.status, store)),
    }
}

fn update<R: Runtime + AllocGlobal + Streams>(
    rt: &R,
    job: &Job<'_, '_>,
    devices: &mut Devices<R>,
) -> Result<u8, StartFault>
where
    R::File: HeldFile,
{
    let Devices {
        folder,
        store,
        disk,
    } = devices;
    if !may_write(job, disk) {
        return Ok(Status::DiskFault.code());
    }
    let mut output = StdoutSink::new(rt.clone()?);
    let asked = asked_of(job, b"");
    let run = run_update(rt.alloc(), &asked, folder, store, disk, &mut output);
    match &run.outcome {
        Ok(updated) => {
            // If a line can't be written, nothing changes.
            let _ = note_report(rt, job, &updated.report, &updated.looked.conf, store);
            let _ = note_root(rt, store, disk);
            let _ = note_unsearched(rt, job, folder, disk.written().entries);
            code_of(run.status)
        }
        Err(_) => Ok(fail(rt, job, run.status, store)),
    }
}

// Names directories with libraries that weren't searched, if the new cache has no entry. The tree is read again.
fn note_unsearched<R: Runtime + AllocGlobal + Streams>(
    rt: &R,
    job: &Job<'_, '_>,
    folder: &mut RootFolder<R>,
    entries: Option<u32>,
) -> io::Result<()>
where
    R::File: HeldFile,
{
    if entries != Some(0) {
        return Ok(());
    }
    match read_tree(rt.alloc(), folder) {
        Ok(tree) => note_library_dirs(rt, job.target.dir, &tree),
        Err(_) => Ok(()),
    }
}

// Whether the files that will be written can be, as far as this is known before a link is made.
fn may_write<R: Runtime + Streams>(job: &Job<'_, '_>, disk: &mut FolderDisk<R>) -> bool
where
    R::File: HeldFile,
{
    (!job.parts.cache || disk.is_replaceable(Slot::Cache))
        && (job.aux.file.is_none() || disk.is_replaceable(Slot::Aux))
}

// Says why the run failed, and returns the exit status.
fn fail<R: Runtime + Streams>(
    rt: &R,
    job: &Job<'_, '_>,
    status: Status,
    store: &FolderStore<R>,
) -> u8 {
    if store.has_met_aux() {
        let _ = note_no_aux(rt, job.aux.path);
        return Status::Usage.code();
    }
    if status == Status::NoMemory {
        let _ = write_text(rt, OUT_OF_MEMORY);
    } else {
        let _ = note_fault(rt, job.target.dir, status);
    }
    status.code()
}
