//! A store of the files below a directory.
ghost use Rattle.std.specs.Prelude.{◌≡◌, ◌↔◌, ◌≤◌, ◌-◌, Some, length, min, IfOk, IsTrue};
ghost use Rattle.tree_real.specs.Unknown.{no_counts, unknown_store};

use crate::counts::{StoreCounts, one_more};
use crate::linker_script::{SCRIPT_HEAD, is_linker_script};
use crate::machines::{FirstFile, Machines};
use device_rules::{Identity, foreign_machine};
use image_folder::{HeldFile, ImageFolder, shorter};
use lib_types::{Failed, NoMemory};
use name_order::is_library_name;
use path_walk::parted;
use standard_streams::Streams;
use std::io::{self, Error, ErrorKind};
use std::os::unix::fs::FileExt;
use std::rt::Runtime;
use tree_face::Store;

/// The files below a directory. A key is a path below it, without `..`. Symbolic links in it are not followed.
#[derive(Drop)]
pub struct FolderStore<R: Runtime> {
    image: ImageFolder<R>,
    // The auxiliary cache's file, if it exists.
    aux: Option<Identity>,
    // Whether a file to open was the auxiliary cache's.
    has_met_aux: bool,
    file: Option<R::File>,
    counts: StoreCounts,
    machines: Machines<R>,
    // Whether the first file that was opened is not a library: a conf file is read before the libraries.
    read_conf: bool,
}

impl<R: Runtime> FolderStore<R> {
    /// The store of the files below `root`.
    pub fn new(rt: R, root: &str) -> Result<FolderStore<R>, NoMemory>
        ensures { IfOk result (λ store. store.counts ≡ no_counts) }
    {
        let image = ImageFolder::new(rt, root)?;
        Ok(FolderStore::without(image, None))
    }

    /// The store of the files in this directory. If one of them is the file `aux`, it can't be opened: an auxiliary cache isn't a file of
    /// an image.
    pub fn without(image: ImageFolder<R>, aux: Option<Identity>) -> FolderStore<R>
        ensures { result.counts ≡ no_counts }
    {
        FolderStore {
            image,
            aux,
            has_met_aux: false,
            file: None,
            counts: StoreCounts {
                size: None,
                faults: 0,
                begun: 0,
                taken: 0,
            },
            machines: Machines {
                files: 0,
                first: None,
            },
            read_conf: false,
        }
    }

    /// The files for machines that no cache is built for.
    pub fn machines(&self) -> &Machines<R> {
        &self.machines
    }

    /// Whether a conf file was read: it is read before the libraries.
    pub fn has_read_conf(&self) -> bool {
        self.read_conf
    }

    /// Whether a file was not opened because it is the auxiliary cache's.
    pub fn has_met_aux(&self) -> bool {
        self.has_met_aux
    }

    /// The number of files that were opened.
    pub fn begun(&self) -> u64
        ensures { result ≡ self.now.counts.begun }
    {
        self.counts.begun
    }
}

impl<R: Runtime> FolderStore<R>
where
    R::File: HeldFile,
{
    // Opens the file of a key, and returns its length.
    fn open_key(&mut self, key: &[u8]) -> io::Result<(R::File, u64)>
        ensures { self.new.counts ≡ self.old.counts }
    {
        let Ok(path) = std::str::from_utf8(key) else {
            let message = "a file name that isn't UTF-8 text";
            return Err(Error::new(ErrorKind::InvalidInput, message));
        };
        let (file, stamp) = self.image.open(path)?;
        if is_file(self.aux, stamp.identity()) {
            self.has_met_aux = true;
            return Err(Error::new(ErrorKind::InvalidInput, "it is the auxiliary cache"));
        }
        Ok((file, stamp.size))
    }

    /// Whether the file of this path below the directory is a linker script, by its first bytes. The reading doesn't count as a call of the
    /// store.
    pub fn is_linker_script(&mut self, path: &str) -> bool
        ensures { self.new.counts ≡ self.old.counts }
    {
        let mut head = [0u8; SCRIPT_HEAD];
        match self.read_head(path, &mut head) {
            Ok(count) => is_linker_script(&head[..count]),
            Err(_) => false,
        }
    }

    // Reads the first bytes of a file into the buffer, and returns their number.
    fn read_head(&mut self, path: &str, buf: &mut [u8]) -> io::Result<usize>
        ensures counts { self.new.counts ≡ self.old.counts }
        ensures within { IfOk result (λ count. count ≤ length buf.old) }
    {
        let (file, stamp) = self.image.open(path)?;
        let count = count_at(stamp.size, 0, buf.len());
        file.read_exact_at(&mut buf[..count], 0)?;
        Ok(count)
    }

    // Reads from an offset of the open file, with one pread call.
    fn fill(&self, at: u64, buf: &mut [u8]) -> io::Result<()> {
        match &self.file {
            Some(file) => file.read_exact_at(buf, at),
            None => Err(Error::new(ErrorKind::InvalidInput, "no file is open")),
        }
    }

    // Notes a library for a machine that no cache is built for, by its first bytes.
    fn note_machine(&mut self, head: &[u8])
        ensures { self.new.counts ≡ self.old.counts }
    {
        if let Some(number) = foreign_machine(head) {
            self.machines.files = one_more(self.machines.files);
            if self.machines.first.is_none() {
                if let Ok(path) = self.image.name() {
                    self.machines.first = Some(FirstFile { path, number });
                }
            }
        }
    }
}

// Whether the file with this identity is `other`, if that exists.
fn is_file(other: Option<Identity>, identity: Identity) -> bool
    ensures { IsTrue result ↔ other ≡ Some identity }
{
    match other {
        Some(other) => other.is(identity),
        None => false,
    }
}

// The number of bytes to read into a buffer of this length.
fn count_at(size: u64, at: u64, room: usize) -> usize
    ensures { result ≡ min room (size - at) }
{
    size.saturating_sub(at).min(room as u64) as usize
}

// Whether the last name of a path is a library's name.
fn is_library(key: &[u8]) -> bool {
    is_library_name(parted(key).1)
}

impl<R: Runtime + Streams> Store for FolderStore<R>
where
    R::File: HeldFile,
{
    ghost state = { λ s. unknown_store s.counts };

    fn begin(&mut self, key: &[u8]) -> Result<u64, Failed> {
        if self.counts.begun == 0 {
            self.read_conf = !is_library(key);
        }
        self.counts.begun = one_more(self.counts.begun);
        match self.open_key(key) {
            Ok((file, size)) => {
                self.file = Some(file);
                self.counts.size = Some(size);
                Ok(size)
            }
            Err(error) => {
                self.image.write_error_line("", error);
                self.file = None;
                self.counts.size = None;
                self.counts.faults = one_more(self.counts.faults);
                Err(Failed)
            }
        }
    }

    fn read_at(&mut self, at: u64, buf: &mut [u8]) -> Result<usize, Failed> {
        let count = count_at(self.counts.size.unwrap_or(0), at, buf.len());
        if let Err(error) = self.fill(at, &mut buf[..count]) {
            self.image.write_error_line("", shorter(error));
            self.counts.faults = one_more(self.counts.faults);
            return Err(Failed);
        }
        if at == 0 {
            self.note_machine(&buf[..count]);
        }
        self.counts.taken = self.counts.taken.saturating_add(count as u64);
        Ok(count)
    }
}
