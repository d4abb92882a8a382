//! The directories of a manifest that have libraries and weren't searched.
use image_folder::HeldFile;
use lib_types::{NoMemory, Text, Texts};
use name_order::is_library_name;
use path_walk::parted;
use standard_streams::{Streams, printable, printable_bytes, write_text};
use std::alloc::Global;
use std::io::{self, Error, ErrorKind};
use std::rt::Runtime;
use string_pool::TextSet;
use tree_face::{Node, Tree};
use tree_real::FolderDisk;

// The most directories that are named.
const NAMED: usize = 3;

/// Names directories that have files with library names, for an update that found none in the directories that it searched. The manifest is
/// read again.
pub fn note_unsearched<R: Runtime + AllocGlobal + Streams>(
    rt: &R,
    disk: &mut FolderDisk<R>,
) -> io::Result<()>
where
    R::File: HeldFile,
{
    let text = disk.manifest_text(rt.alloc())?;
    let Ok(tree) = mtree_manifest::read(rt.alloc(), &text) else {
        return Ok(());
    };
    note_library_dirs(rt, "image.mtree", &tree)
}

/// Names directories of a tree that have files with library names, at most three, and says how many others there are. `root` is the name of
/// the tree. None of them was searched.
pub fn note_library_dirs<R: Runtime + AllocGlobal + Streams>(
    rt: &R,
    root: &str,
    tree: &Tree,
) -> io::Result<()> {
    let Ok(dirs) = library_dirs(rt.alloc(), tree) else {
        return Err(Error::from(ErrorKind::OutOfMemory));
    };
    for dir in dirs.as_slice().iter().take(NAMED) {
        let shown = printable_bytes(rt, dir.as_bytes())?;
        let line = format!(in rt.alloc();
            "ldconfig: {shown}: it has libraries and isn't searched: add it to etc/ld.so.conf\n"
        )?;
        write_text(rt, line.as_str())?;
    }
    let others = dirs.len().saturating_sub(NAMED);
    if others == 0 {
        return Ok(());
    }
    let root = printable(rt, root)?;
    let line = format!(in rt.alloc();
        "ldconfig: {root}: more directories that have libraries and aren't searched: {others}\n"
    )?;
    write_text(rt, line.as_str())
}

// The directories of files with library names, in the order of the tree.
fn library_dirs(alloc: Global, tree: &Tree) -> Result<Texts, NoMemory> {
    let mut dirs = TextSet::new(alloc);
    for (path, node) in tree.nodes() {
        if let (Some(dir), Node::File { .. }) = (library_dir(path), node)
            && !dirs.contains(dir)
        {
            dirs.insert(Text::copy_of(alloc, dir)?)?;
        }
    }
    dirs.into_texts(alloc)
}

// The directory of a path whose last name is that of a library.
fn library_dir(path: &[u8]) -> Option<&[u8]> {
    let (dir, name) = parted(path);
    if is_library_name(name) {
        Some(dir)
    } else {
        None
    }
}
