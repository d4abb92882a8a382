//! Paths of this machine.
use command_status::Status;
use device_rules::{SlotPaths, divided};
use diagnostics::StartFault;
use standard_streams::{Streams, printable, write_text};
use std::alloc::AllocError;
use std::io;
use std::rt::Runtime;

/// The path with symbolic links resolved. If the file doesn't exist, this is its resolved directory and its name. The result is None if
/// that directory doesn't exist.
pub fn real_path<R: Runtime>(rt: &R, path: &str) -> Result<Option<String<R::A>>, AllocError> {
    match rt.canonicalize(rt.alloc(), path) {
        Ok(real) => Ok(Some(real.into_string())),
        Err(_) => real_next_to(rt, path),
    }
}

fn real_next_to<R: Runtime>(rt: &R, path: &str) -> Result<Option<String<R::A>>, AllocError> {
    let (directory, name) = divided(path);
    match rt.canonicalize(rt.alloc(), directory_of(path, directory)) {
        Ok(real) => {
            let real = real.into_string();
            let directory = real.as_str().trim_end_matches('/');
            Ok(Some(format!(in rt.alloc(); "{directory}/{name}")?))
        }
        Err(_) => Ok(None),
    }
}

/// The directory of a path. `directory` is what `divided` returns: it is empty if the path has no slash, or only a leading one.
pub fn directory_of<'a>(path: &str, directory: &'a str) -> &'a str {
    if !directory.is_empty() {
        directory
    } else if path.starts_with('/') {
        "/"
    } else {
        "."
    }
}

/// The paths of an image's files. The cache has this path if one is given. The result is None if the path can't name a file.
pub fn paths_of<R: Runtime + AllocGlobal>(
    rt: &R,
    cache: Option<&str>,
) -> Result<Option<SlotPaths>, StartFault> {
    match cache {
        Some(path) => Ok(SlotPaths::with_cache(rt.alloc(), path)?),
        None => Ok(Some(SlotPaths::usual())),
    }
}

/// Says that a path can't name a cache file, and returns the exit status.
pub fn no_cache_path<R: Runtime + Streams>(rt: &R, path: &str) -> Result<u8, StartFault> {
    let _ = note_cache_path(rt, path);
    Ok(Status::Usage.code())
}

fn note_cache_path<R: Runtime + Streams>(rt: &R, path: &str) -> io::Result<()> {
    let shown = printable(rt, path)?;
    let line = format!(in rt.alloc();
        "ldconfig: -C {shown}: use the path of a file, without ..\n"
    )?;
    write_text(rt, line.as_str())
}
