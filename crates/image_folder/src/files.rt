//! Files that are opened after they were looked at.
ghost use Rattle.std.specs.Prelude.{◌≡◌, IfOk, IfSome};

use device_rules::{Identity, Opened, Stamp, identity_of, is_cut, opened_as, owner_of, stamp_of};
use std::fs::{self, FileType, Metadata, OpenFile};
use std::io::{self, Error, ErrorKind, Read};
use std::os::unix::fs::FileTypeExt;
use std::rt::Runtime;

/// Fills the buffer with the file's next bytes.
pub fn read_whole<F: Read>(file: &mut F, buf: &mut [u8]) -> io::Result<()> {
    file.read_exact(buf).map_err(shorter)
}

/// The error of a reading. It says so if the file became shorter while it was read.
pub fn shorter(error: Error) -> Error {
    if is_cut(error.kind()) {
        Error::new(error.kind(), "the file ends before its length")
    } else {
        error
    }
}

// The most attempts to look at a file and open it, if another file replaces it in between each time.
const MOST_LOOKS: usize = 8;

/// Opens the regular file of a path.
pub fn open_file<R: Runtime>(rt: &R, path: &str) -> io::Result<(R::File, Stamp)> {
    for _ in 0..MOST_LOOKS {
        if let Some(opened) = look_and_open(rt, path)? {
            return Ok(opened);
        }
    }
    Err(changed())
}

// Opens what was found to be a regular file. The result is None if another regular file replaced it in between.
fn look_and_open<R: Runtime>(rt: &R, path: &str) -> io::Result<Option<(R::File, Stamp)>> {
    let found = look_for_file(rt, path)?;
    open_found(rt, path, found)
}

// Opens the file that was looked at. The result is None if another regular file replaced it in between.
fn open_found<R: Runtime>(
    rt: &R,
    path: &str,
    found: Identity,
) -> io::Result<Option<(R::File, Stamp)>>
    ensures device { IfOk result (λ opened. IfSome opened (λ file. file.1.device ≡ found.device)) }
    ensures inode { IfOk result (λ opened. IfSome opened (λ file. file.1.inode ≡ found.inode)) }
{
    let file = fs::open(rt, path)?;
    let opened = file.metadata()?;
    let stamp = stamp_of(&opened);
    match opened_as(found, stamp.identity(), opened.is_file()) {
        Opened::Same => Ok(Some((file, stamp))),
        Opened::OtherFile => Ok(None),
        Opened::Other => Err(changed()),
    }
}

// The identity of the regular file at a path.
fn look_for_file<R: Runtime>(rt: &R, path: &str) -> io::Result<Identity> {
    let found = fs::symlink_metadata(rt, path)?;
    let kind = found.file_type();
    if kind.is_file() {
        Ok(identity_of(&found))
    } else {
        Err(Error::new(ErrorKind::InvalidInput, no_file(kind)))
    }
}

/// The error of a file that was replaced meanwhile.
pub fn changed() -> Error {
    Error::new(ErrorKind::ResourceBusy, "changed meanwhile")
}

/// Whether the user of this run owns the file.
pub fn is_own<R: Runtime>(rt: &R, file: &Metadata) -> io::Result<bool> {
    Ok(owner_of(&fs::metadata(rt, "/proc/self")?).user == owner_of(file).user)
}

/// The error of a temporary file that can't be removed.
pub fn left_behind() -> Error {
    Error::new(
        ErrorKind::PermissionDenied,
        "a temporary file of an earlier run can't be removed",
    )
}

// The kind of file that was found instead of a regular file.
fn no_file(kind: FileType) -> &'static str {
    if kind.is_symlink() {
        "a symbolic link in place of a regular file"
    } else if kind.is_dir() {
        "a directory in place of a regular file"
    } else if kind.is_fifo() {
        "a pipe in place of a regular file"
    } else if kind.is_socket() {
        "a socket in place of a regular file"
    } else {
        "a device in place of a regular file"
    }
}
