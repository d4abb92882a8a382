//! What the devices ask of an open file.
ghost use Rattle.std.specs.Prelude.{◌≡◌, ◌↔◌, ◌≢◌, Err, IsTrue, false};
ghost use Rattle.std.specs.Result.{is_err};

use std::fs::{File, OpenFile, TryLockError};
use std::io;
use std::os::fd::{AsFd, AsRawFd};
use std::os::unix::fs::{FileExt, fchown};

/// Who has the lock on a file. The system releases it when the file is closed, and when the program ends or is killed.
#[derive(Clone, Copy, Debug, PartialEq, Eq)]
pub enum Lock {
    /// This handle has it.
    Own,
    /// Another program has it.
    Other,
    /// The file system has no locks, or the call failed.
    Unknown,
}

impl Lock {
    /// Whether a new file still belongs to its maker: no other program has taken it for a leftover.
    pub fn is_kept(self) -> bool
        ensures { IsTrue result ↔ self ≢ Lock.Other }
    {
        self != Lock::Other
    }

    /// Whether the file is a leftover of a program that ended: certainly no other program has the lock.
    pub fn is_left(self) -> bool
        ensures { IsTrue result ↔ self ≡ Lock.Own }
    {
        self == Lock::Own
    }
}

/// An open file with a descriptor, through which the content of an open directory can be reached, and with a lock and an owner.
pub trait HeldFile: FileExt + AsRawFd {
    /// Takes the lock on the file if nobody has it.
    fn take_lock(&self) -> Lock;

    /// Gives the file to a user and a group.
    fn give_to(&self, user: u32, group: u32) -> io::Result<()>;
}

impl HeldFile for File {
    fn take_lock(&self) -> Lock {
        lock_of(self.try_lock())
    }

    fn give_to(&self, user: u32, group: u32) -> io::Result<()> {
        fchown(self.as_fd(), Some(user), Some(group))
    }
}

// Who has the lock after this attempt to take it.
fn lock_of(taken: Result<(), TryLockError>) -> Lock
    ensures own { result ≡ Lock.Own ↔ is_err taken ≡ false }
    ensures other { result ≡ Lock.Other ↔ taken ≡ Err TryLockError.WouldBlock }
{
    match taken {
        Ok(()) => Lock::Own,
        Err(TryLockError::WouldBlock) => Lock::Other,
        Err(TryLockError::Error(_)) => Lock::Unknown,
    }
}
