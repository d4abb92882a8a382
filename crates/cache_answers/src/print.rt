//! Commands that only print: the usage text, the version, and a cache.
use asking_runs::{run_print_json, run_print_named};
use command_status::Status;
use device_rules::{RunId, SlotPaths, divided};
use diagnostics::{StartFault, USAGE};
use image_folder::HeldFile;
use root_jobs::{directory_of, no_cache_path, paths_of, real_path};
use standard_streams::{OUT_OF_MEMORY, Streams, printable, write_text};
use std::io;
use std::rt::Runtime;
use tree_face::put_all;
use tree_real::{FolderDisk, StdoutSink};

/// Writes a text to the output, and returns the exit status.
pub fn print_text<R: Runtime + Streams>(rt: &R, text: &str) -> Result<u8, StartFault> {
    let mut output = StdoutSink::new(rt.clone()?);
    if put_all(&mut output, text.as_bytes()).is_err() {
        return Ok(Status::OutputFault.code());
    }
    Ok(Status::Done.code())
}

/// Writes the usage text to the output, and returns the exit status.
pub fn print_usage<R: Runtime + Streams>(rt: &R) -> Result<u8, StartFault> {
    let mut output = StdoutSink::new(rt.clone()?);
    for part in USAGE {
        if put_all(&mut output, part.as_bytes()).is_err() {
            return Ok(Status::OutputFault.code());
        }
    }
    Ok(Status::Done.code())
}

/// The name of the cache on the first line, if no other name is given.
const USUAL_NAME: &str = "/etc/ld.so.cache";

/// Prints the cache of the directory `root`, or the one at the path `cache` in it, as text or as JSON, and returns the exit status.
pub fn print_in_root<R: Runtime + AllocGlobal + Streams>(
    rt: &R,
    id: RunId,
    root: &str,
    cache: Option<&str>,
    json: bool,
) -> Result<u8, StartFault>
where
    R::File: HeldFile,
{
    let name = cache.unwrap_or(USUAL_NAME);
    let Some(paths) = paths_of(rt, cache)? else {
        return no_cache_path(rt, name);
    };
    let mut disk = FolderDisk::new(rt.clone()?, root, id, paths, None)?;
    let status = print_on(rt, &mut disk, name, json)?;
    let _ = note_asked(rt, Some(root), disk.cache_file(), status);
    Ok(status.code())
}

/// Prints the cache at this path of the machine, with symbolic links followed, and returns the exit status.
pub fn print_file<R: Runtime + AllocGlobal + Streams>(
    rt: &R,
    id: RunId,
    path: &str,
) -> Result<u8, StartFault>
where
    R::File: HeldFile,
{
    let real = match real_path(rt, path)? {
        Some(real) => real,
        None => String::from_str(rt.alloc(), path)?,
    };
    let (directory, name) = divided(real.as_str());
    let Some(paths) = SlotPaths::with_cache(rt.alloc(), name)? else {
        return no_cache_path(rt, path);
    };
    let root = directory_of(real.as_str(), directory);
    let mut disk = FolderDisk::new(rt.clone()?, root, id, paths, None)?;
    let status = print_on(rt, &mut disk, path, false)?;
    let _ = note_asked(rt, None, path, status);
    Ok(status.code())
}

fn print_on<R: Runtime + AllocGlobal + Streams>(
    rt: &R,
    disk: &mut FolderDisk<R>,
    name: &str,
    json: bool,
) -> Result<Status, StartFault>
where
    R::File: HeldFile,
{
    let mut output = StdoutSink::new(rt.clone()?);
    let name = name.as_bytes();
    Ok(if json {
        run_print_json(rt.alloc(), name, disk, &mut output)
    } else {
        run_print_named(rt.alloc(), name, disk, &mut output)
    })
}

/// Says why a command that only asks has no answer from the cache at this path. If `root` is given, the path is in that directory.
pub fn note_asked<R: Runtime + Streams>(
    rt: &R,
    root: Option<&str>,
    cache: &str,
    status: Status,
) -> io::Result<()> {
    let reason = match status {
        Status::NoMemory => return write_text(rt, OUT_OF_MEMORY),
        Status::NoCache => "No such file or directory",
        Status::BadCache(_) => {
            "the line on the output says what is wrong, docs/FORMATS.md explains it"
        }
        _ => return Ok(()),
    };
    let cache = printable(rt, cache)?;
    let line = match root {
        Some(root) => {
            let root = printable(rt, root.trim_end_matches('/'))?;
            format!(in rt.alloc(); "ldconfig: {root}/{cache}: {reason}\n")?
        }
        None => format!(in rt.alloc(); "ldconfig: {cache}: {reason}\n")?,
    };
    write_text(rt, line.as_str())
}
