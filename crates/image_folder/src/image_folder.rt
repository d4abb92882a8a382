//! The files of an image that is unpacked in a directory.
ghost use Rattle.std.specs.Prelude.{◌≡◌, false, IfOk};
ghost use Rattle.device_rules.specs.Paths.{has_up};

use crate::files::open_file;
use crate::folders::{Missing, open_first, open_or_make, path_of};
use crate::held_file::HeldFile;
use device_rules::{Stamp, divided, following, has_up, is_at_or_above, is_missing, leads_on};
use lib_types::NoMemory;
use standard_streams::{Streams, write_error_line};
use std::alloc::{AllocError, Allocator};
use std::fs::{self, Metadata, OpenFile};
use std::io::{self, Error, ErrorKind};
use std::rt::Runtime;

/// The most directories of one path that are open at once.
const MOST_OPEN: usize = 64;

/// A directory whose files are reached without following a symbolic link in it.
///
/// Each directory on the way to a file is opened, and its content is reached through the open directory. So it doesn't matter if another
/// directory or a link takes its place while it is open.
#[derive(Drop)]
pub struct ImageFolder<R: Runtime> {
    pub rt: R,
    // The image's directory.
    root: String<R::A>,
    // Whether the files are named by their path on this machine, which begins with that of the image's directory.
    names_root: bool,
    // Whether the system shows open files below /proc/self/fd.
    by_number: bool,
    // The open directories, from the root to that of the last file.
    levels: Vec<Level<R>, R::A>,
    // The path of the last call, as passed to the system. It is empty if the call was about the directory itself that `last_level` names.
    path: String<R::A>,
    // The offset of the last name in `path`.
    name_at: usize,
    // The index of the level that the last call was about.
    last_level: usize,
}

/// A directory on the way to a file.
#[derive(Drop)]
struct Level<R: Runtime> {
    // Its path below the root, which is empty for the root.
    name: String<R::A>,
    // The prefix of the paths of its files, as passed to the system.
    prefix: String<R::A>,
    // None if the directory can be entered but not read.
    open: Option<R::File>,
}

impl<R: Runtime> ImageFolder<R> {
    /// The image in the directory `root`. Its files are named by their path below `root`.
    pub fn new(rt: R, root: &str) -> Result<ImageFolder<R>, NoMemory> {
        ImageFolder::at(rt, root, false)
    }

    /// The directory `dir` of this machine. Its files are named by their path on this machine, which begins with `dir` as it is given.
    pub fn of_machine(rt: R, dir: &str) -> Result<ImageFolder<R>, NoMemory> {
        ImageFolder::at(rt, dir, true)
    }

    fn at(rt: R, root: &str, names_root: bool) -> Result<ImageFolder<R>, NoMemory> {
        let root = String::from_str(rt.alloc(), root)?;
        let levels = Vec::new(rt.alloc());
        let path = String::new(rt.alloc());
        Ok(ImageFolder {
            rt,
            root,
            names_root,
            by_number: false,
            levels,
            path,
            name_at: 0,
            last_level: 0,
        })
    }

    /// The name of the file of the last call: its path below the image's directory, or on this machine. The directory itself is `.`, or
    /// its path on this machine.
    pub fn name(&self) -> Result<String<R::A>, AllocError> {
        let below = self.name_below()?;
        if !self.names_root {
            return Ok(below);
        }
        let (root, below) = (self.root.as_str(), below.as_str());
        if below == "." {
            return String::from_str(self.rt.alloc(), root);
        }
        let root = root.trim_end_matches('/');
        format!(in self.rt.alloc(); "{root}/{below}")
    }

    // The path below the image's directory of the file of the last call.
    fn name_below(&self) -> Result<String<R::A>, AllocError> {
        let folder = match self.levels.get(self.last_level) {
            Some(level) => level.name.as_str(),
            None => "",
        };
        let last = self.last();
        match (folder.is_empty(), last.is_empty()) {
            (true, true) => String::from_str(self.rt.alloc(), "."),
            (true, false) => String::from_str(self.rt.alloc(), last),
            (false, true) => String::from_str(self.rt.alloc(), folder),
            (false, false) => format!(in self.rt.alloc(); "{folder}/{last}"),
        }
    }

    // The last name of the path.
    fn last(&self) -> &str {
        self.path.as_str().get(self.name_at..).unwrap_or("")
    }

    /// From here on, faults are about the file of this name in the directory that was entered.
    pub fn go_to(&mut self, name: &str) -> Result<(), AllocError> {
        self.last_level = self.levels.len().saturating_sub(1);
        let prefix = prefix_in(&self.levels);
        self.name_at = prefix.len();
        put_joined(&mut self.path, prefix, name)
    }

    // From here on, faults are about the image's own directory.
    fn go_to_root(&mut self) -> Result<(), AllocError> {
        self.last_level = 0;
        self.name_at = 0;
        put_joined(&mut self.path, "", self.root.as_str())
    }

    /// The path of the last call, as passed to the system.
    pub fn path(&self) -> &str {
        self.path.as_str()
    }

    /// The path of another name in the directory that was entered, as passed to the system.
    pub fn path_next_to(&self, name: &str) -> Result<String<R::A>, AllocError> {
        let prefix = prefix_in(&self.levels);
        format!(in self.rt.alloc(); "{prefix}{name}")
    }
}

// The prefix of the paths of the files in the last of these directories, as passed to the system.
fn prefix_in<R: Runtime>(levels: &[Level<R>]) -> &str {
    match levels.last() {
        Some(level) => level.prefix.as_str(),
        None => "",
    }
}

// The path below the root of the last of these directories.
fn name_in<R: Runtime>(levels: &[Level<R>]) -> &str {
    match levels.last() {
        Some(level) => level.name.as_str(),
        None => "",
    }
}

fn put_joined<A: Allocator>(
    path: &mut String<A>,
    front: &str,
    back: &str,
) -> Result<(), AllocError> {
    path.clear();
    path.push_str(front)?;
    path.push_str(back)
}

impl<R: Runtime + Streams> ImageFolder<R> {
    /// Writes the line that the last call failed on the error output, with the call and the path where it failed.
    pub fn write_error_line(&self, call: &str, error: Error) {
        match self.name() {
            Ok(name) => write_error_line(&self.rt, name.as_str(), call, error),
            Err(_) => write_error_line(&self.rt, self.last(), call, error),
        }
    }
}

impl<R: Runtime> ImageFolder<R>
where
    R::File: HeldFile,
{
    /// Opens a regular file, and returns its stamp. A symbolic link on the way, or anything but a regular file at the end, is an error
    /// before it is opened: a link may lead out of the image, and opening a pipe would wait. A component `..` is an error, too.
    pub fn open(&mut self, path: &str) -> io::Result<(R::File, Stamp)>
        ensures inside { IfOk result (λ _. has_up path.now ≡ false) }
    {
        self.require_inside(path)?;
        let (folder, name) = divided(path);
        self.enter_inside(folder, Missing::IsFault)?;
        self.go_to(name)?;
        if !leads_on(name.as_bytes()) {
            return Err(Error::new(ErrorKind::InvalidInput, "the path has no file's name"));
        }
        open_file(&self.rt, self.path.as_str())
    }

    /// The file of this name in the directory that was entered, if there is one.
    pub fn look(&mut self, name: &str) -> io::Result<Option<Metadata>> {
        self.go_to(name)?;
        look_at(&self.rt, self.path.as_str())
    }

    /// Goes to a directory, component by component, from the deepest directory on the way to it that is already open. A component `..` is
    /// an error, because it may lead out of the image.
    pub fn enter(&mut self, folder: &str, missing: Missing) -> io::Result<()>
        ensures inside { IfOk result (λ _. has_up folder.now ≡ false) }
    {
        self.require_inside(folder)?;
        self.enter_inside(folder, missing)
    }

    // Returns an error about this path if a component of it is `..`.
    fn require_inside(&mut self, path: &str) -> io::Result<()>
        ensures { IfOk result (λ _. has_up path.now ≡ false) }
    {
        if !has_up(path.as_bytes()) {
            return Ok(());
        }
        self.last_level = 0;
        self.name_at = 0;
        put_joined(&mut self.path, "", path)?;
        Err(Error::new(ErrorKind::InvalidInput, "the path has \"..\""))
    }

    // Goes to a directory whose path has no component `..`.
    fn enter_inside(&mut self, folder: &str, missing: Missing) -> io::Result<()> {
        if self.is_in(folder) {
            return Ok(());
        }
        self.open_root()?;
        let kept = on_the_way(&self.levels, folder);
        self.levels.truncate(kept);
        match following(folder, name_in(&self.levels)) {
            Some(rest) => self.go_on(rest, missing),
            None => Err(Error::new(ErrorKind::InvalidInput, "another folder is open")),
        }
    }

    // Goes on from the directory that was entered.
    fn go_on(&mut self, rest: &str, missing: Missing) -> io::Result<()> {
        for part in rest.split('/') {
            if leads_on(part.as_bytes()) {
                self.step(part, missing)?;
            }
        }
        Ok(())
    }

    // Whether this directory was entered last.
    fn is_in(&self, folder: &str) -> bool {
        !self.levels.is_empty() && name_in(&self.levels) == folder
    }

    // Opens the image's own directory. If its path is a symbolic link, the link is followed, because it isn't in the image.
    fn open_root(&mut self) -> io::Result<()> {
        if !self.levels.is_empty() {
            return Ok(());
        }
        self.go_to_root()?;
        let (open, by_number) = open_first(&self.rt, self.path.as_str())?;
        self.by_number = by_number;
        self.push("", open)
    }

    // Goes one component further, which must be a directory.
    fn step(&mut self, part: &str, missing: Missing) -> io::Result<()> {
        self.go_to(part)?;
        let open = open_or_make(&self.rt, self.path.as_str(), missing)?;
        self.push(part, open)
    }

    // Adds the directory at the path to those that are open. If there are too many, it replaces the last one.
    fn push(&mut self, part: &str, open: Option<R::File>) -> io::Result<()> {
        let level = self.level(part, open)?;
        if self.levels.len() >= MOST_OPEN {
            let _ = self.levels.pop();
        }
        self.levels.push(level)?;
        Ok(())
    }

    // The directory at the path. `open` is None if it can't be opened.
    fn level(&self, part: &str, open: Option<R::File>) -> Result<Level<R>, AllocError> {
        let prefix = self.prefix_of(&open)?;
        let name = self.name_of(part)?;
        Ok(Level { name, prefix, open })
    }

    // The path below the root of this name in the directory that was entered.
    fn name_of(&self, part: &str) -> Result<String<R::A>, AllocError> {
        let above = name_in(&self.levels);
        if above.is_empty() {
            return String::from_str(self.rt.alloc(), part);
        }
        format!(in self.rt.alloc(); "{above}/{part}")
    }

    // The prefix of the paths of the files in the directory at the path, as passed to the system. `open` is None if it can't be opened.
    fn prefix_of(&self, open: &Option<R::File>) -> Result<String<R::A>, AllocError> {
        match open {
            Some(file) if self.by_number => path_of(&self.rt, file),
            _ => {
                let path = self.path.as_str();
                format!(in self.rt.alloc(); "{path}/")
            }
        }
    }

    /// Flushes the directory that was entered, and those on the way to it, to stable storage.
    pub fn sync_folders(&mut self) -> io::Result<()> {
        self.path.clear();
        self.name_at = 0;
        sync_all_of(&self.rt, &self.levels, &mut self.last_level)
    }
}

// The number of these directories, each below the one before it, that are ancestors of this directory or the directory itself.
fn on_the_way<R: Runtime>(levels: &[Level<R>], folder: &str) -> usize {
    let mut count = 0usize;
    for level in levels.iter() {
        if !is_at_or_above(level.name.as_bytes(), folder.as_bytes()) {
            return count;
        }
        count = count.saturating_add(1);
    }
    count
}

fn look_at<R: Runtime>(rt: &R, path: &str) -> io::Result<Option<Metadata>> {
    match fs::symlink_metadata(rt, path) {
        Ok(found) => Ok(Some(found)),
        Err(error) if is_missing(error.kind()) => Ok(None),
        Err(error) => Err(error),
    }
}

// Flushes these directories one after the other, and sets `at` to the index of the current one.
fn sync_all_of<R: Runtime>(rt: &R, levels: &[Level<R>], at: &mut usize) -> io::Result<()> {
    for i in 0..levels.len() {
        *at = i;
        sync_folder(rt, &levels[i])?;
    }
    Ok(())
}

// If a directory isn't open, it can't be opened now either. The error says why.
fn sync_folder<R: Runtime>(rt: &R, level: &Level<R>) -> io::Result<()> {
    match &level.open {
        Some(file) => file.sync_all(),
        None => fs::open(rt, level.prefix.as_str())?.sync_all(),
    }
}
