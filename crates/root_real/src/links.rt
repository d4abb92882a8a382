//! Making links and flushing directories.
use crate::paths::{below_root, dir_below_root, no_path};
use crate::temporary::{make_temporary, remove_left};
use device_rules::{RunId, divided};
use image_folder::{HeldFile, ImageFolder, Missing};
use std::fs::{self, FileType, OpenFile};
use std::io::{self, Error, ErrorKind};
use std::os::unix::fs::symlink;
use std::rt::Runtime;
use std::str::from_utf8;
use tree_face::Tag;

/// Makes a link where there is nothing, or in place of a link. If anything else is there, the call fails and changes nothing.
pub(crate) fn make_link<R: Runtime>(
    image: &mut ImageFolder<R>,
    run: RunId,
    tag: Tag,
    path: &[u8],
    target: &[u8],
) -> io::Result<()>
where
    R::File: HeldFile,
{
    let Some(path) = below_root(path) else {
        return Err(no_path());
    };
    let (dir, name) = divided(path);
    let target = text_of(target)?;
    image.enter(dir, Missing::IsFault)?;
    match image.look(name)? {
        None => symlink(&image.rt, target, image.path()),
        Some(found) if found.is_symlink() => replace(image, run, tag, target),
        Some(found) => Err(in_the_way(found.file_type())),
    }
}

fn text_of(target: &[u8]) -> io::Result<&str> {
    match from_utf8(target) {
        Ok(text) => Ok(text),
        Err(_) => Err(Error::new(ErrorKind::InvalidInput, "its target isn't UTF-8 text")),
    }
}

// Replaces the link that was looked at last. The new link is made under a temporary name in the same directory and renamed. So the old
// link or the new one is there at each moment. A file that takes the old link's place before the rename is lost, because the library has
// no rename that refuses to replace a file.
fn replace<R: Runtime>(
    image: &ImageFolder<R>,
    run: RunId,
    tag: Tag,
    target: &str,
) -> io::Result<()> {
    let temporary = make_temporary(image, run, tag, target)?;
    match image.rt.rename(temporary.as_str(), image.path()) {
        Ok(()) => Ok(()),
        Err(error) => {
            let _ = image.rt.remove_file(temporary.as_str());
            Err(error)
        }
    }
}

fn in_the_way(kind: FileType) -> Error {
    let found = if kind.is_dir() {
        "a directory in the link's place"
    } else if kind.is_file() {
        "a regular file in the link's place"
    } else {
        "a special file in the link's place"
    };
    Error::new(ErrorKind::AlreadyExists, found)
}

/// Removes the temporary links that runs left in a directory below the image's, and flushes it if there were any. If a removal weren't
/// flushed before the first link is made, a crash of the machine could undo it and keep the link. Then no later run would remove it.
pub(crate) fn clean<R: Runtime>(image: &mut ImageFolder<R>, dir: &str) -> io::Result<()>
where
    R::File: HeldFile,
{
    image.enter(dir, Missing::IsFault)?;
    image.go_to("")?;
    if remove_left(&image.rt, image.path())? {
        flush_entered(image)?;
    }
    Ok(())
}

// Flushes the directory that was entered.
fn flush_entered<R: Runtime>(image: &ImageFolder<R>) -> io::Result<()> {
    let path = image.path_next_to(".")?;
    fs::open(&image.rt, path.as_str())?.sync_all()
}

/// Flushes a directory to stable storage.
pub(crate) fn settle<R: Runtime>(image: &mut ImageFolder<R>, dir: &[u8]) -> io::Result<()>
where
    R::File: HeldFile,
{
    let Some(dir) = dir_below_root(dir) else {
        return Err(no_path());
    };
    image.enter(dir, Missing::IsFault)?;
    flush_entered(image)
}
