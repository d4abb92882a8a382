//! Links under temporary names.
use device_rules::{MOST_NAMES, RunId, is_missing, is_no_text, is_there, maker_of, temporary_path};
use image_folder::{ImageFolder, is_own, left_behind};
use std::fs::{self, DirEntry, read_dir};
use std::io::{self, Error, ErrorKind};
use std::os::unix::fs::symlink;
use std::rt::Runtime;
use tree_face::Tag;

// The prefix of temporary names. It is not the start of a library name, and is short enough for a link of any name.
const FRONT: &str = ".ldconfig";

/// Makes a link under a temporary name in the directory that was entered, and returns its path.
pub(crate) fn make_temporary<R: Runtime>(
    image: &ImageFolder<R>,
    run: RunId,
    tag: Tag,
    target: &str,
) -> io::Result<String<R::A>> {
    for turn in 0..MOST_NAMES {
        let name = temporary_path(&image.rt, FRONT, tag, run.turned(turn))?;
        let path = image.path_next_to(name.as_str())?;
        match symlink(&image.rt, target, path.as_str()) {
            Ok(()) => return Ok(path),
            Err(error) if is_there(error.kind()) => {}
            Err(error) => return Err(error),
        }
    }
    Err(Error::new(ErrorKind::AlreadyExists, "its temporary names are taken"))
}

/// Removes the temporary links of ended runs in this directory, and returns whether there were any. Links that can't be examined or
/// removed stay. It is an error if one of them is this user's own: otherwise each run would leave one more in such a directory, which may
/// be append-only.
pub(crate) fn remove_left<R: Runtime>(rt: &R, dir: &str) -> io::Result<bool> {
    let mut removed = false;
    for entry in read_dir(rt, dir)? {
        match entry {
            Ok(entry) => removed = remove_entry(rt, &entry)? || removed,
            Err(error) if is_no_text(error.kind()) => {}
            Err(error) => return Err(error),
        }
    }
    Ok(removed)
}

// Removes the link of a directory entry, if it is such a temporary link. Returns whether it did.
fn remove_entry<R: Runtime>(rt: &R, entry: &DirEntry<R, R::A>) -> io::Result<bool> {
    let Some(process) = maker_of(entry.file_name(), FRONT) else {
        return Ok(false);
    };
    if !is_left(rt, process, entry).unwrap_or(false) {
        return Ok(false);
    }
    match rt.remove_file(entry.path().as_str()) {
        Ok(()) => Ok(true),
        Err(_) => require_others(rt, entry),
    }
}

// Returns an error if the link of a directory entry is there and this user's own.
fn require_others<R: Runtime>(rt: &R, entry: &DirEntry<R, R::A>) -> io::Result<bool> {
    let Ok(found) = entry.metadata() else {
        return Ok(false);
    };
    if is_own(rt, &found)? {
        return Err(left_behind());
    }
    Ok(false)
}

// Whether it is a link that an ended process made. If a process now has this number, it may be about to rename the link.
fn is_left<R: Runtime>(rt: &R, process: &str, entry: &DirEntry<R, R::A>) -> io::Result<bool> {
    Ok(entry.metadata()?.is_symlink() && is_gone(rt, process)?)
}

fn is_gone<R: Runtime>(rt: &R, process: &str) -> io::Result<bool> {
    let path = format!(in rt.alloc(); "/proc/{process}")?;
    match fs::metadata(rt, path.as_str()) {
        Ok(_) => Ok(false),
        Err(error) if is_missing(error.kind()) => Ok(true),
        Err(error) => Err(error),
    }
}
