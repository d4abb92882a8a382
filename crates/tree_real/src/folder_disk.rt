//! The files of an image that is unpacked in a directory, as a `Disk`.
ghost use Rattle.std.specs.Prelude.{◌≡◌, ◌≤◌, IfOk, OnErr, OnOk};
ghost use Rattle.std.specs.Result.{is_err};
ghost use Rattle.lib_types.specs.Counts.{HasRisen, raised};
ghost use Rattle.tree_real.specs.Unknown.{unknown_disk, unknown_moments};

use crate::counts::one_more;
use device_rules::{RunId, SlotPaths, is_out_of_memory};
use image_folder::{DirLock, HeldFile};
use lib_types::{Failed, NoMemory};
use slot_files::{ImageSlots, SlotFiles, Written};
use standard_streams::Streams;
use std::alloc::Global;
use std::io;
use std::rt::Runtime;
use tree_face::{Disk, DiskRead, Slot, Tag};

/// The slots in a directory, with a count of the calls that failed.
#[derive(Drop)]
pub struct FolderDisk<R: Runtime> {
    files: ImageSlots<R>,
    faults: u64,
    // The number of faults in reading calls.
    read_faults: u64,
    lock: Locking<R>,
}

// The lock on the image's directory.
#[derive(Drop)]
enum Locking<R: Runtime> {
    // This disk takes none: it only reads, or its maker has taken the lock.
    Unused,
    // It is taken before the first reading, on the directory of this path.
    Wanted(R, String<R::A>),
    Held(DirLock<R>),
}

impl<R: Runtime> FolderDisk<R> {
    /// The slots of the image in the directory `root`, at these paths in it. The auxiliary cache is `aux` if it is given.
    pub fn new(
        rt: R,
        root: &str,
        run: RunId,
        paths: SlotPaths,
        aux: Option<SlotFiles<R>>,
    ) -> Result<FolderDisk<R>, NoMemory>
        ensures { IfOk result (λ disk. unknown_disk disk.faults disk.read_faults ≡ unknown_disk 0 0) }
    {
        let files = ImageSlots::new(rt, root, run, paths, aux)?;
        Ok(FolderDisk {
            files,
            faults: 0,
            read_faults: 0,
            lock: Locking::Unused,
        })
    }

    /// The same slots, for a run that writes what it makes of the files that it reads. Before the first reading it takes the lock on the
    /// directory, and keeps it as long as this value exists, so that what another run writes is not lost.
    pub fn locking(
        rt: R,
        root: &str,
        run: RunId,
        paths: SlotPaths,
    ) -> Result<FolderDisk<R>, NoMemory>
        ensures { IfOk result (λ disk. unknown_disk disk.faults disk.read_faults ≡ unknown_disk 0 0) }
    {
        let own = rt.clone()?;
        let directory = String::from_str(own.alloc(), root)?;
        let files = ImageSlots::new(rt, root, run, paths, None)?;
        Ok(FolderDisk {
            files,
            faults: 0,
            read_faults: 0,
            lock: Locking::Wanted(own, directory),
        })
    }

    /// The cache's file, below the root.
    pub fn cache_file(&self) -> &str {
        self.files.cache_file()
    }

    /// What was replaced, and the entry counts of the caches.
    pub fn written(&self) -> Written {
        self.files.written()
    }
}

impl<R: Runtime> FolderDisk<R>
where
    R::File: HeldFile,
{
    /// A line of the manifest as it is now, counted from 1, without its newline. The manifest is read again. The reading doesn't count as
    /// a call of the disk.
    pub fn manifest_line(&mut self, alloc: Global, number: u64) -> io::Result<Vec<u8>> {
        let text = self.manifest_text(alloc)?;
        Ok(Vec::from_slice(alloc, line_of(&text, number))?)
    }

    /// The manifest as it is now, or nothing if there is none. The reading doesn't count as a call of the disk.
    pub fn manifest_text(&mut self, alloc: Global) -> io::Result<Vec<u8>> {
        let text = self.files.read(alloc, Slot::Manifest)?;
        Ok(text.unwrap_or(Vec::new(alloc)))
    }

    /// The bytes of the cache as it is now, if there is one. The reading doesn't count as a call of the disk.
    pub fn cache_bytes(&mut self, alloc: Global) -> io::Result<Option<Vec<u8>>> {
        self.files.read(alloc, Slot::Cache)
    }
}

impl<R: Runtime + Streams> FolderDisk<R>
where
    R::File: HeldFile,
{
    /// Whether the slot's file can be replaced, as far as this is known before writing. If not, a line on the error output says why. This
    /// doesn't count as a call of the disk.
    pub fn is_replaceable(&mut self, slot: Slot) -> bool
        ensures { unknown_disk self.new.faults self.new.read_faults ≡ unknown_disk self.old.faults self.old.read_faults }
    {
        match self.files.require_place(slot) {
            Ok(()) => true,
            Err(error) => {
                self.files.fail(slot, "", error);
                false
            }
        }
    }

    // Takes the lock if it is wanted. If it couldn't be taken, a line on the error output says why. Returns whether reading may begin.
    fn has_lock(&mut self) -> bool
        ensures { unknown_disk self.new.faults self.new.read_faults ≡ unknown_disk self.old.faults self.old.read_faults }
    {
        let Locking::Wanted(rt, directory) = &self.lock else {
            return true;
        };
        match DirLock::take(rt, directory.as_str()) {
            Ok(lock) => {
                self.lock = Locking::Held(lock);
                true
            }
            Err(_) => false,
        }
    }

    // The fault of a reading call, which is counted.
    fn read_fault(&mut self) -> DiskRead
        ensures failed { result ≡ DiskRead.Failed }
        ensures faults { self.new.faults ≡ raised self.old.faults 1 }
        ensures read_faults { self.new.read_faults ≡ raised self.old.read_faults 1 }
    {
        self.faults = one_more(self.faults);
        self.read_faults = one_more(self.read_faults);
        DiskRead::Failed
    }

    // The result of a writing call. A failure is counted.
    fn result(&mut self, slot: Slot, call: &str, done: io::Result<()>) -> Result<(), Failed>
        ensures same { is_err result ≡ is_err done }
        ensures faults { self.old.faults ≤ self.new.faults }
        ensures not_counted { OnOk result (self.new.faults ≡ self.old.faults) }
        ensures read_faults { self.new.read_faults ≡ self.old.read_faults }
        ensures cause { OnErr result (HasRisen self.old.faults self.new.faults) }
    {
        match done {
            Ok(()) => Ok(()),
            Err(error) => {
                self.files.fail(slot, call, error);
                self.faults = one_more(self.faults);
                Err(Failed)
            }
        }
    }
}

impl<R: Runtime + Streams> Disk for FolderDisk<R>
where
    R::File: HeldFile,
{
    ghost state = { λ d. unknown_disk d.faults d.read_faults };

    ghost made_if_there = { λ _. tt };

    ghost moments = { λ d. unknown_moments d.faults d.read_faults };

    fn read(&mut self, alloc: Global, slot: Slot) -> Result<Option<Vec<u8>>, DiskRead> {
        if !self.has_lock() {
            return Err(self.read_fault());
        }
        match self.files.read(alloc, slot) {
            Ok(found) => Ok(found),
            Err(error) if is_out_of_memory(error.kind()) => Err(DiskRead::NoMemory),
            Err(error) => {
                self.files.fail(slot, "read: ", error);
                Err(self.read_fault())
            }
        }
    }

    fn create(&mut self, tag: Tag, slot: Slot) -> Result<(), Failed> {
        let done = self.files.create(tag, slot);
        self.result(slot, "create: ", done)
    }

    fn append(&mut self, tag: Tag, slot: Slot, bytes: &[u8]) -> Result<(), Failed> {
        let done = self.files.append(tag, slot, bytes);
        self.result(slot, "write: ", done)
    }

    fn sync(&mut self, tag: Tag, slot: Slot) -> Result<(), Failed> {
        let done = self.files.sync(tag, slot);
        self.result(slot, "sync: ", done)
    }

    fn publish(&mut self, tag: Tag, slot: Slot) -> Result<(), Failed> {
        let done = self.files.publish(tag, slot);
        self.result(slot, "replace: ", done)
    }

    fn settle(&mut self, slot: Slot) -> Result<(), Failed> {
        let done = self.files.settle(slot);
        self.result(slot, "settle: ", done)
    }
}

// A line of a text, counted from 1, without its newline. It is empty if the text has no such line.
fn line_of(text: &[u8], number: u64) -> &[u8] {
    let at = usize::try_from(number.saturating_sub(1)).unwrap_or(usize::MAX);
    text.split(|b| *b == b'\n').nth(at).unwrap_or(&[])
}
