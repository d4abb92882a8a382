//! Temporary files that belong to one run.
ghost use Rattle.std.specs.Prelude.{◌≡◌, true};
ghost use Rattle.std.specs.Fs.{asks_create_new, asks_read, asks_write};

use device_rules::{
    Identity, MOST_NAMES, RunId, USUAL_MODE, identity_of, is_missing, is_no_text, is_there,
    maker_of, temporary_path,
};
use image_folder::{HeldFile, ImageFolder, is_own, open_file};
use std::fs::{self, DirEntry, OpenFile, OpenOptions, read_dir};
use std::io::{self, Error, ErrorKind};
use std::os::unix::fs::OpenOptionsExt;
use std::rt::Runtime;
use tree_face::{Slot, Tag};

/// An open temporary file, with a lock on it as long as it is open.
#[derive(Drop)]
pub struct Temporary<R: Runtime> {
    pub tag: Tag,
    pub slot: Slot,
    /// Its name in the directory of the slot's file.
    pub name: String<R::A>,
    /// Its path at its creation, as passed to the system.
    pub path: String<R::A>,
    pub file: R::File,
    /// The mode that it gets when it is complete.
    pub mode: u32,
}

/// Makes an empty temporary file for the slot's file of this name, in the directory that was entered. It has a lock, which shows other
/// runs that it is in use. Returns its name and its path, too.
pub fn make_own<R: Runtime>(
    image: &ImageFolder<R>,
    slot_name: &str,
    tag: Tag,
    run: RunId,
) -> io::Result<(String<R::A>, String<R::A>, R::File)>
where
    R::File: HeldFile,
{
    for turn in 0..MOST_NAMES {
        let name = temporary_path(&image.rt, slot_name, tag, run.turned(turn))?;
        let path = image.path_next_to(name.as_str())?;
        if let Some(file) = make_locked(&image.rt, path.as_str())? {
            return Ok((name, path, file));
        }
    }
    Err(Error::new(ErrorKind::AlreadyExists, "its temporary files are taken"))
}

// Makes an empty file with a lock. The result is None if the name is taken, or if another run took the unlocked file for a leftover.
fn make_locked<R: Runtime>(rt: &R, path: &str) -> io::Result<Option<R::File>>
where
    R::File: HeldFile,
{
    let file = match make_file(rt, path) {
        Ok(file) => file,
        Err(error) if is_there(error.kind()) => return Ok(None),
        Err(error) => return Err(error),
    };
    if !file.take_lock().is_kept() {
        return Ok(None);
    }
    match is_still_at(rt, path, &file) {
        Ok(true) => Ok(Some(file)),
        Ok(false) => Ok(None),
        Err(error) => {
            let _ = rt.remove_file(path);
            Err(error)
        }
    }
}

// Whether the path still leads to this open file.
fn is_still_at<R: Runtime>(rt: &R, path: &str, file: &R::File) -> io::Result<bool> {
    let made = identity_of(&file.metadata()?);
    is_at(rt, path, made)
}

// Creates an empty file. It is an error if it exists.
fn make_file<R: Runtime>(rt: &R, path: &str) -> io::Result<R::File> {
    new_file().open(rt, path)
}

// How a new file is opened.
fn new_file() -> OpenOptions
    ensures new { asks_create_new result ≡ true }
    ensures read { asks_read result ≡ true }
    ensures write { asks_write result ≡ true }
{
    let mut options = OpenOptions::new();
    // While it is written, other users can't write it, whatever mode it gets at the end.
    options.mode(USUAL_MODE);
    options.read(true).write(true).create_new(true);
    options
}

// Whether the path leads to this file.
fn is_at<R: Runtime>(rt: &R, path: &str, file: Identity) -> io::Result<bool> {
    match fs::symlink_metadata(rt, path) {
        Ok(found) => Ok(identity_of(&found).is(file)),
        Err(error) if is_missing(error.kind()) => Ok(false),
        Err(error) => Err(error),
    }
}

/// Removes the temporary files for the slot's file of this name that runs left and that have no lock, from this directory. Files that
/// can't be examined or removed stay. Returns whether one of them is this user's own: then this user can't remove any file from the
/// directory, because it is append-only, for example.
pub fn remove_left<R: Runtime>(rt: &R, folder: &str, slot_name: &str) -> io::Result<bool>
where
    R::File: HeldFile,
{
    let mut stays = false;
    for entry in read_dir(rt, folder)? {
        match entry {
            Ok(entry) => stays = remove_entry(rt, &entry, slot_name) || stays,
            Err(error) if is_no_text(error.kind()) => {}
            Err(error) => return Err(error),
        }
    }
    Ok(stays)
}

// Removes the file of a directory entry, if it is such a temporary file. Returns whether it stays and is this user's own.
fn remove_entry<R: Runtime>(rt: &R, entry: &DirEntry<R, R::A>, slot_name: &str) -> bool
where
    R::File: HeldFile,
{
    match maker_of(entry.file_name(), slot_name) {
        Some(_) => remove_if_left(rt, entry.path().as_str()).unwrap_or(false),
        None => false,
    }
}

// Removes a temporary file if no program has its lock. While this program has the lock, no other run removes the file, so the path can't
// become another file's. Returns whether it stays and is this user's own.
fn remove_if_left<R: Runtime>(rt: &R, path: &str) -> io::Result<bool>
where
    R::File: HeldFile,
{
    let (file, stamp) = open_file(rt, path)?;
    if !file.take_lock().is_left() || !is_at(rt, path, stamp.identity())? {
        return Ok(false);
    }
    match rt.remove_file(path) {
        Ok(()) => Ok(false),
        Err(_) => is_own(rt, &file.metadata()?),
    }
}
