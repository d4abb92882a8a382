//! Directories that are opened after they were looked at, and created where they are missing.
ghost use Rattle.std.specs.Prelude.{◌≡◌, ◌↔◌, ◌⊎◌, IsTrue};

use crate::files::changed;
use crate::held_file::HeldFile;
use device_rules::{
    FOLDER_MODE, identity_of, is_closed, is_forbidden, is_missing, is_there, lacks_mode,
};
use std::alloc::AllocError;
use std::fs::{self, DirBuilder, FileType, Metadata, OpenFile, Permissions, read_dir};
use std::io::{self, Error, ErrorKind};
use std::os::fd::AsRawFd;
use std::os::unix::fs::{DirBuilderExt, MetadataExt, PermissionsExt};
use std::rt::Runtime;

/// What to do if a directory of the path is missing.
#[derive(Clone, Copy, PartialEq, Eq)]
pub enum Missing {
    IsFault,
    IsMade,
}

/// Opens the directory of a path, if it may be read, and says whether the system shows open files in /proc/self/fd. A symbolic link at the
/// path is followed.
pub fn open_first<R: Runtime>(rt: &R, path: &str) -> io::Result<(Option<R::File>, bool)>
where
    R::File: HeldFile,
{
    let found = fs::metadata(rt, path)?;
    let open = open_folder(rt, path, &found)?;
    let by_number = match &open {
        Some(file) => is_shown(rt, file, &found)?,
        None => false,
    };
    Ok((open, by_number))
}

/// Opens the directory of a path, if it may be read, and creates it if it is missing and `missing` says so.
pub fn open_or_make<R: Runtime>(
    rt: &R,
    path: &str,
    missing: Missing,
) -> io::Result<Option<R::File>> {
    let (found, made) = find_folder(rt, path, missing)?;
    require_folder(found.file_type())?;
    let open = open_folder(rt, path, &found)?;
    if let Some(file) = &open {
        if made || (missing == Missing::IsMade && was_left(rt, path, &found)) {
            set_mode(file, &found)?;
        }
    }
    Ok(open)
}

// The file at the path, and whether it is a directory that was created now.
fn find_folder<R: Runtime>(rt: &R, path: &str, missing: Missing) -> io::Result<(Metadata, bool)> {
    match fs::symlink_metadata(rt, path) {
        Ok(found) => Ok((found, false)),
        Err(error) if is_to_make(error.kind(), missing) => {
            let made = make_folder(rt, path)?;
            Ok((fs::symlink_metadata(rt, path)?, made))
        }
        Err(error) => Err(error),
    }
}

// Whether to create a directory that couldn't be looked at because of this kind of error.
fn is_to_make(kind: ErrorKind, missing: Missing) -> bool
    ensures { IsTrue result ↔ ((kind ≡ ErrorKind.NotFound) × (missing ≡ Missing.IsMade)) }
{
    is_missing(kind) && missing == Missing::IsMade
}

// Whether the directory at the path is empty and closed to others: then a run created it and was stopped before it set the mode.
fn was_left<R: Runtime>(rt: &R, path: &str, found: &Metadata) -> bool {
    is_closed(found.mode()) && is_empty(rt, path)
}

fn is_empty<R: Runtime>(rt: &R, path: &str) -> bool {
    match read_dir(rt, path) {
        Ok(mut names) => names.next().is_none(),
        Err(_) => false,
    }
}

// Opens the directory of a path, if it may be read.
fn open_folder<R: Runtime>(rt: &R, path: &str, found: &Metadata) -> io::Result<Option<R::File>> {
    match open_inside(rt, path) {
        Ok(file) => Ok(Some(require_same(file, found)?)),
        Err(error) if is_forbidden(error.kind()) => Ok(None),
        Err(error) => Err(error),
    }
}

// With the dot, opening fails at once if a pipe is now at the path.
fn open_inside<R: Runtime>(rt: &R, path: &str) -> io::Result<R::File> {
    let path = format!(in rt.alloc(); "{path}/.")?;
    fs::open(rt, path.as_str())
}

// The opened file must be the one that was looked at. Otherwise a link or another file replaced it meanwhile.
fn require_same<F: OpenFile + Drop>(file: F, found: &Metadata) -> io::Result<F> {
    let opened = identity_of(&file.metadata()?);
    if identity_of(found).is(opened) {
        Ok(file)
    } else {
        Err(changed())
    }
}

/// The path of an open directory for system calls.
pub fn path_of<R: Runtime>(rt: &R, file: &R::File) -> Result<String<R::A>, AllocError>
where
    R::File: HeldFile,
{
    let number = file.as_raw_fd();
    format!(in rt.alloc(); "/proc/self/fd/{number}/")
}

/// Whether /proc/self/fd has this open directory. A system without /proc has none.
pub fn is_shown<R: Runtime>(rt: &R, file: &R::File, found: &Metadata) -> io::Result<bool>
where
    R::File: HeldFile,
{
    let path = path_of(rt, file)?;
    match fs::metadata(rt, path.as_str()) {
        Ok(shown) => Ok(identity_of(&shown).is(identity_of(found))),
        Err(error) if is_not_shown(error.kind()) => Ok(false),
        Err(error) => Err(error),
    }
}

// Whether this kind of error says that the system doesn't show open files.
fn is_not_shown(kind: ErrorKind) -> bool
    ensures { IsTrue result ↔ (kind ≡ ErrorKind.NotFound ⊎ kind ≡ ErrorKind.PermissionDenied) }
{
    is_missing(kind) || is_forbidden(kind)
}

// Creates a directory, and says whether it did: another run may have created it at the same time.
fn make_folder<R: Runtime>(rt: &R, path: &str) -> io::Result<bool> {
    let mut builder = DirBuilder::new();
    builder.mode(FOLDER_MODE);
    match builder.create(rt, path) {
        Ok(()) => Ok(true),
        Err(error) if is_there(error.kind()) => Ok(false),
        Err(error) => Err(error),
    }
}

// Sets the full mode, because the umask may have removed some of it.
fn set_mode<F: OpenFile>(file: &F, found: &Metadata) -> io::Result<()> {
    if lacks_mode(found.mode()) {
        file.set_permissions(Permissions::from_mode(FOLDER_MODE))
    } else {
        Ok(())
    }
}

fn require_folder(kind: FileType) -> io::Result<()> {
    if kind.is_dir() {
        Ok(())
    } else {
        Err(Error::new(ErrorKind::NotADirectory, no_folder(kind)))
    }
}

// The kind of file that was found instead of a directory.
fn no_folder(kind: FileType) -> &'static str {
    if kind.is_symlink() {
        "a symbolic link in place of a directory"
    } else if kind.is_file() {
        "a regular file in place of a directory"
    } else {
        "a special file in place of a directory"
    }
}
