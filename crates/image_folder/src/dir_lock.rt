//! The lock on the directory of an image.
ghost use Rattle.std.specs.Prelude.{◌≡◌, ◌↔◌, Ok, true, false};

use crate::folders::is_shown;
use crate::held_file::{HeldFile, Lock};
use crate::holder::holder;
use device_rules::identity_of;
use standard_streams::{Streams, pause, write_error_line};
use std::alloc::AllocError;
use std::fs::{self, OpenFile};
use std::io::{self, Error, ErrorKind};
use std::rt::Runtime;

/// An exclusive lock on the open directory of an image. The system releases it when this value is dropped, or when the program ends.
#[derive(Drop)]
pub struct DirLock<R: Runtime> {
    file: R::File,
}

/// Why the lock was not taken.
#[derive(Clone, Copy, Debug, PartialEq, Eq)]
pub enum LockFault {
    /// The directory can't be opened.
    NoRoot,
    /// Another run has had the lock for a minute, the file system has no locks, or the system shows no open files in /proc.
    NotTaken,
}

// How often to try a lock that another run has, with a pause of 10 ms before each time: for a minute.
const MOST_TURNS: u64 = 6000;

impl<R: Runtime + Streams> DirLock<R>
where
    R::File: HeldFile,
{
    /// Takes the lock on the directory `root`, in which files are written next. If another run has it, it waits up to a minute. Lines on
    /// the error output say that it waits, and why it didn't get the lock. Without /proc it takes none: a directory that is exchanged
    /// for a link could be written through then.
    pub fn take(rt: &R, root: &str) -> Result<DirLock<R>, LockFault> {
        match open_dir(rt, root) {
            Ok(file) => take_file(rt, root, file),
            Err(error) => {
                write_line(rt, root, "", error);
                Err(LockFault::NoRoot)
            }
        }
    }
}

// With the dot, opening a pipe fails at once instead of waiting.
fn open_dir<R: Runtime>(rt: &R, root: &str) -> io::Result<R::File> {
    let path = format!(in rt.alloc(); "{root}/.")?;
    fs::open(rt, path.as_str())
}

fn take_file<R: Runtime + Streams>(
    rt: &R,
    root: &str,
    file: R::File,
) -> Result<DirLock<R>, LockFault>
where
    R::File: HeldFile,
{
    let taken = match require_shown(rt, &file) {
        Ok(()) => wait_for(rt, root, &file),
        Err(error) => Err(error),
    };
    match taken {
        Ok(true) => return Ok(DirLock { file }),
        Ok(false) => write_line(rt, root, "not locked within a minute: ", held_by(rt, &file)),
        Err(error) => write_line(rt, root, "lock: ", error),
    }
    Err(LockFault::NotTaken)
}

// Files are written by the paths of open directories in /proc.
fn require_shown<R: Runtime>(rt: &R, file: &R::File) -> io::Result<()>
where
    R::File: HeldFile,
{
    if is_shown(rt, file, &file.metadata()?)? {
        Ok(())
    } else {
        Err(Error::new(
            ErrorKind::Unsupported,
            "/proc isn't mounted; mount it: mount -t proc proc /proc",
        ))
    }
}

// Takes the lock on the open directory, and says whether it did. If the lock isn't free, it writes a line that says so and waits.
fn wait_for<R: Runtime + Streams>(rt: &R, root: &str, file: &R::File) -> io::Result<bool>
where
    R::File: HeldFile,
{
    if try_once(file)? {
        return Ok(true);
    }
    write_line(
        rt,
        root,
        "waiting up to a minute for its lock: ",
        held_by(rt, file),
    );
    for _ in 0..MOST_TURNS {
        pause(rt);
        if try_once(file)? {
            return Ok(true);
        }
    }
    Ok(false)
}

// Whether the lock was free and was taken.
fn try_once<F: HeldFile>(file: &F) -> io::Result<bool> {
    is_taken(file.take_lock())
}

// Whether an attempt took the lock. It is an error if nobody knows who has it.
fn is_taken(lock: Lock) -> io::Result<bool>
    ensures own { result ≡ Ok true ↔ lock ≡ Lock.Own }
    ensures other { result ≡ Ok false ↔ lock ≡ Lock.Other }
{
    match lock {
        Lock::Own => Ok(true),
        Lock::Other => Ok(false),
        Lock::Unknown => Err(Error::new(ErrorKind::Unsupported, "the file system has no locks")),
    }
}

// Writes the line that names the directory. The working directory is named by its path from the root of this machine.
fn write_line<R: Runtime + Streams>(rt: &R, root: &str, call: &str, error: Error) {
    match shown_name(rt, root) {
        Ok(name) => write_error_line(rt, name.as_str(), call, error),
        Err(_) => write_error_line(rt, root, call, error),
    }
}

fn shown_name<R: Runtime>(rt: &R, root: &str) -> Result<String<R::A>, AllocError> {
    match rt.canonicalize(rt.alloc(), root) {
        Ok(path) if root == "." => Ok(path.into_string()),
        _ => String::from_str(rt.alloc(), root),
    }
}

// The error of a lock that another process has.
fn held_by<R: Runtime>(rt: &R, file: &R::File) -> Error {
    match holder_error(rt, file) {
        Ok(error) => error,
        Err(error) => error,
    }
}

// The error names the process, if the system shows it.
fn holder_error<R: Runtime>(rt: &R, file: &R::File) -> io::Result<Error> {
    let identity = identity_of(&file.metadata()?);
    match holder(rt, identity) {
        Ok(Some(process)) => {
            let reason = format!(in rt.alloc(); "process {process} has it")?;
            Ok(Error::new(ErrorKind::WouldBlock, reason.as_str()))
        }
        _ => Ok(Error::new(ErrorKind::WouldBlock, "another process has it")),
    }
}
