//! Open files and directories of a trial.
use crate::plan::{Plan, SystemCall};
use image_folder::{HeldFile, Lock};
use std::fs::{File, FileTimes, Files, Metadata, OpenFile, Permissions};
use std::io::{self, Read, Seek, SeekFrom, Write};
use std::os::fd::{AsRawFd, RawFd};
use std::os::unix::fs::{FileExt, MetadataExt};
use std::rc::Rc;

/// An open file.
#[derive(Drop)]
pub struct TrialFile {
    file: File,
    plan: Rc<Plan>,
}

impl TrialFile {
    pub(crate) fn new(file: File, plan: Rc<Plan>) -> TrialFile {
        TrialFile { file, plan }
    }

    // A flush is counted and not made: it takes long, and a trial can't see whether it was made.
    fn flush_all(&self) -> io::Result<()> {
        self.plan.pass(SystemCall::Sync)?;
        self.plan.add_flush(self.file.metadata()?.ino());
        Ok(())
    }
}

impl Read for TrialFile {
    fn read(&mut self, buf: &mut [u8]) -> io::Result<usize> {
        let most = self.plan.pass_moving(SystemCall::Read, buf.len())?;
        self.file.read(&mut buf[..most])
    }
}

impl Write for TrialFile {
    fn write(&mut self, buf: &[u8]) -> io::Result<usize> {
        let most = self.plan.pass_moving(SystemCall::Write, buf.len())?;
        self.file.write(&buf[..most])
    }

    fn flush(&mut self) -> io::Result<()> {
        self.file.flush()
    }
}

impl Seek for TrialFile {
    fn seek(&mut self, to: SeekFrom) -> io::Result<u64> {
        self.plan.pass(SystemCall::Read)?;
        self.file.seek(to)
    }
}

impl FileExt for TrialFile {
    fn read_at(&self, buf: &mut [u8], offset: u64) -> io::Result<usize> {
        let most = self.plan.pass_moving(SystemCall::Read, buf.len())?;
        self.file.read_at(&mut buf[..most], offset)
    }

    fn write_at(&self, buf: &[u8], offset: u64) -> io::Result<usize> {
        let most = self.plan.pass_moving(SystemCall::Write, buf.len())?;
        self.file.write_at(&buf[..most], offset)
    }
}

impl AsRawFd for TrialFile {
    fn as_raw_fd(&self) -> RawFd {
        self.file.as_raw_fd()
    }
}

impl OpenFile for TrialFile {
    fn metadata(&self) -> io::Result<Metadata> {
        self.plan.pass(SystemCall::Look)?;
        self.file.metadata()
    }

    fn set_len(&self, size: u64) -> io::Result<()> {
        self.plan.pass(SystemCall::Change)?;
        self.file.set_len(size)
    }

    fn sync_all(&self) -> io::Result<()> {
        self.flush_all()
    }

    fn sync_data(&self) -> io::Result<()> {
        self.flush_all()
    }

    fn set_permissions(&self, perm: Permissions) -> io::Result<()> {
        self.plan.pass(SystemCall::Change)?;
        self.file.set_permissions(perm)
    }

    fn set_times(&self, times: FileTimes) -> io::Result<()> {
        self.plan.pass(SystemCall::Change)?;
        self.file.set_times(times)
    }
}

impl HeldFile for TrialFile {
    fn take_lock(&self) -> Lock {
        match self.plan.pass(SystemCall::Lock) {
            Ok(()) => self.file.take_lock(),
            Err(_) => Lock::Unknown,
        }
    }

    fn give_to(&self, user: u32, group: u32) -> io::Result<()> {
        self.plan.pass(SystemCall::Give)?;
        self.file.give_to(user, group)
    }
}

/// An open directory.
#[derive(Drop)]
pub struct TrialDir {
    dir: <HostRuntime as Files>::Dir,
    plan: Rc<Plan>,
}

impl TrialDir {
    pub(crate) fn new(dir: <HostRuntime as Files>::Dir, plan: Rc<Plan>) -> TrialDir {
        TrialDir { dir, plan }
    }
}

// A read must not end inside a name, so it isn't shortened to one byte.
impl Read for TrialDir {
    fn read(&mut self, buf: &mut [u8]) -> io::Result<usize> {
        let most = self.plan.pass_listing(buf.len())?;
        self.dir.read(&mut buf[..most])
    }
}
