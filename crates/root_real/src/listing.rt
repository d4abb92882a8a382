//! The names in a directory.
ghost use Rattle.std.specs.Prelude.{IfOk};
ghost use Rattle.std.specs.Cmp.Lexicographic.{slice_cmp};
ghost use Rattle.std.specs.List.Sorted.{IsStrictlySortedBy};
ghost use Rattle.std.specs.Ordering.{nat_cmp};

use crate::extent::{Extent, Names};
use crate::paths::{dir_below_root, no_path};
use device_rules::{divided, is_no_text};
use image_folder::{HeldFile, ImageFolder, Missing};
use lib_types::{NoMemory, Text, Texts, is_name};
use std::alloc::Global;
use std::fs::{DirEntry, FileType, read_dir};
use std::io::{self, Error, ErrorKind};
use std::os::unix::fs::MetadataExt;
use std::rt::Runtime;
use string_pool::ascending;

/// The names in a directory.
#[derive(Drop)]
pub(crate) struct Listing {
    pub(crate) names: Texts,
    /// Whether a name was skipped because it isn't UTF-8 text. The library doesn't return its bytes.
    pub(crate) has_other: bool,
}

/// The error of a name that was skipped.
pub(crate) fn passed_over() -> Error {
    Error::new(
        ErrorKind::InvalidFilename,
        "a name in it isn't UTF-8 text and is passed over",
    )
}

// What the system has listed, in its order.
#[derive(Drop)]
struct Listed {
    names: Vec<Text>,
    has_other: bool,
}

impl Listed {
    // Nothing is listed yet.
    fn new(alloc: Global) -> Listed {
        Listed {
            names: Vec::new(alloc),
            has_other: false,
        }
    }

    // Adds an entry of the directory, if its name is one of these.
    fn add<R: Runtime>(
        &mut self,
        alloc: Global,
        wanted: Names,
        entry: io::Result<DirEntry<R, R::A>>,
    ) -> io::Result<()> {
        match entry {
            Ok(entry) => self.add_name(alloc, wanted, entry.file_name()),
            Err(error) if is_no_text(error.kind()) => {
                self.has_other = true;
                Ok(())
            }
            Err(error) => Err(error),
        }
    }

    // Adds a name, if it is one of these. A name that is too long for a tree is skipped.
    fn add_name(&mut self, alloc: Global, wanted: Names, name: &str) -> io::Result<()> {
        if wanted.has(name.as_bytes()) && is_name(name.as_bytes()) {
            self.names.push(copy_of(alloc, name)?)?;
        }
        Ok(())
    }
}

/// A copy of a text.
pub(crate) fn copy_of(alloc: Global, text: &str) -> io::Result<Text> {
    Text::copy_of(alloc, text.as_bytes()).map_err(out_of_memory)
}

fn out_of_memory(_: NoMemory) -> Error {
    Error::from(ErrorKind::OutOfMemory)
}

/// The device of the image directory's file system.
pub(crate) fn device_of<R: Runtime>(image: &mut ImageFolder<R>) -> io::Result<u64>
where
    R::File: HeldFile,
{
    image.enter("", Missing::IsFault)?;
    device_here(image)
}

// The device of the directory that was entered last.
fn device_here<R: Runtime>(image: &mut ImageFolder<R>) -> io::Result<u64>
where
    R::File: HeldFile,
{
    match image.look(".")? {
        Some(found) => Ok(found.dev()),
        None => Err(Error::from(ErrorKind::NotFound)),
    }
}

// Enters a directory, and returns whether it is on this device. The result is false for a file that only counts as a directory.
fn enter_on<R: Runtime>(image: &mut ImageFolder<R>, device: u64, dir: &str) -> io::Result<bool>
where
    R::File: HeldFile,
{
    match image.enter(dir, Missing::IsFault) {
        Ok(()) => Ok(device_here(image)? == device),
        Err(error) if error.kind() == ErrorKind::NotADirectory => {
            if is_special(image, dir)? {
                Ok(false)
            } else {
                Err(error)
            }
        }
        Err(error) => Err(error),
    }
}

// Whether the path, which leads to no directory, leads to another file that counts as one.
fn is_special<R: Runtime>(image: &mut ImageFolder<R>, dir: &str) -> io::Result<bool>
where
    R::File: HeldFile,
{
    let (folder, name) = divided(dir);
    image.enter(folder, Missing::IsFault)?;
    match image.look(name)? {
        Some(found) => Ok(counts_as_folder(found.file_type())),
        None => Ok(false),
    }
}

// Whether a file of this type counts as a directory in a tree: no link may replace it.
fn counts_as_folder(kind: FileType) -> bool {
    !kind.is_file() && !kind.is_symlink()
}

/// Lists a directory on this device: its names that belong to the tree, in the order of their bytes, each once. The list is empty for a
/// mount point of another file system, and for a file that only counts as a directory.
pub(crate) fn list<R: Runtime>(
    alloc: Global,
    image: &mut ImageFolder<R>,
    device: u64,
    extent: Extent,
    dir: &[u8],
) -> io::Result<Listing>
where
    R::File: HeldFile,
    ensures { IfOk result (λ listing. IsStrictlySortedBy (slice_cmp nat_cmp) listing.names) }
{
    let Some(dir) = dir_below_root(dir) else {
        return Err(no_path());
    };
    let wanted = extent.names_in(dir.as_bytes());
    if wanted == Names::Nothing || !enter_on(image, device, dir)? {
        return in_order(Listed::new(alloc));
    }
    image.go_to("")?;
    let listed = read_names(alloc, &image.rt, image.path(), wanted)?;
    in_order(listed)
}

// Reads those of these names that are in the directory of this path, as the system lists them.
fn read_names<R: Runtime>(alloc: Global, rt: &R, path: &str, wanted: Names) -> io::Result<Listed> {
    let mut listed = Listed::new(alloc);
    for entry in read_dir(rt, path)? {
        listed.add(alloc, wanted, entry)?;
    }
    Ok(listed)
}

// A directory that changes while it is read may list a name twice.
#[tactic(auto, using(crate::proofs::SortedNames::rises))]
fn in_order(listed: Listed) -> io::Result<Listing>
    ensures { IfOk result (λ listing. IsStrictlySortedBy (slice_cmp nat_cmp) listing.names) }
{
    let Listed { names, has_other } = listed;
    match ascending(names) {
        Ok(names) => Ok(Listing { names, has_other }),
        Err(error) => Err(out_of_memory(error)),
    }
}
