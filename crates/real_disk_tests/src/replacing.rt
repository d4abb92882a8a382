//! Replacing the content of a slot.
use crate::host::{dirs_of, file_of, flushes_of};
use lib_types::Failed;
use std::os::unix::fs::MetadataExt;
use std::{fs, io};
use tree_face::{Disk, Slot, Tag};
use trial_devices::Flushes;

/// A replacement that stops after some of its five calls.
#[derive(Clone, Copy)]
pub struct Job {
    pub tag: Tag,
    pub slot: Slot,
    pub calls: usize,
}

/// The number of calls of a whole replacement.
pub const ALL: usize = 5;

/// The number of calls until the file has the slot's name.
pub const RENAMED: usize = 4;

// The number of calls until the file is flushed.
const FLUSHED: usize = 3;

/// Makes the calls of a replacement by this text. The text is written in two parts.
pub fn replace<D: Disk>(disk: &mut D, job: Job, text: &[u8]) -> Result<(), Failed> {
    let (tag, slot) = (job.tag, job.slot);
    disk.create(tag, slot)?;
    if job.calls > 1 {
        let (first, rest) = text.split_at(text.len() / 2);
        disk.append(tag, slot, first)?;
        disk.append(tag, slot, rest)?;
    }
    if job.calls >= FLUSHED {
        disk.sync(tag, slot)?;
    }
    if job.calls >= RENAMED {
        disk.publish(tag, slot)?;
    }
    if job.calls >= ALL {
        disk.settle(slot)?;
    }
    Ok(())
}

/// The flushes of a replacement: that of the file before it gets its name, and at the end those of the directories on the way to it.
pub fn flushes_after(rt: &HostRuntime, job: Job) -> io::Result<Flushes> {
    if job.calls < FLUSHED {
        return Ok(Flushes::NONE);
    }
    let file = inode_of_file(rt, job)?;
    if job.calls < ALL {
        return Ok(Flushes::NONE.with(file));
    }
    Ok(flushes_of(rt, dirs_of(job.slot)).with(file))
}

// The inode of the file that was written.
fn inode_of_file(rt: &HostRuntime, job: Job) -> io::Result<u64> {
    let (file, tag) = (file_of(job.slot), job.tag.0);
    if job.calls >= RENAMED {
        return Ok(fs::metadata(rt, file)?.ino());
    }
    let path = format!(in rt.alloc(); "{file}.tmp{tag}.1.7")?;
    Ok(fs::metadata(rt, path.as_str())?.ino())
}
