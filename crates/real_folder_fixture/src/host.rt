//! What is in a directory, as the system itself shows it.
use lib_types::{Text, Texts};
use std::fs::{self, Metadata, read_dir};
use std::io::{self, Error, ErrorKind};
use std::os::unix::fs::{MetadataExt, symlink};
use tree_face::{Id, Kind, Node};

/// A path of an image, the kind of what is there, and the text of a file or the target of a link.
pub type Row = (&'static str, Kind, &'static str);

/// The error of a call that is out of memory.
pub fn no_memory() -> Error {
    Error::from(ErrorKind::OutOfMemory)
}

/// Makes a node of this kind at this path of the disk.
pub(crate) fn make_node(rt: &HostRuntime, path: &str, kind: Kind, text: &str) -> io::Result<()> {
    match kind {
        Kind::File => fs::write(rt, path, text),
        Kind::Link => symlink(rt, text, path),
        _ => fs::create_dir(rt, path),
    }
}

// The identity of a file (stat(2)).
fn id_of(found: &Metadata) -> Id {
    let (seconds, nanos) = (found.ctime(), found.ctime_nsec());
    let time = seconds.wrapping_mul(1_000_000_000).wrapping_add(nanos);
    Id {
        dev: found.dev(),
        inode: found.ino(),
        ctime: time.cast_unsigned(),
        size: found.size(),
    }
}

/// The node at this path of the disk. A file's key is `key`.
pub fn node_on_disk(rt: &HostRuntime, path: &str, key: &[u8]) -> io::Result<Option<Node>> {
    let Ok(found) = fs::symlink_metadata(rt, path) else {
        return Ok(None);
    };
    if found.is_symlink() {
        let target = fs::read_link(rt, path)?;
        let target = copy_of(rt, target.as_str().as_bytes())?;
        return Ok(Some(Node::Link { target }));
    }
    if !found.is_file() {
        return Ok(Some(Node::Dir));
    }
    Ok(Some(Node::File {
        key: copy_of(rt, key)?,
        id: Some(id_of(&found)),
    }))
}

pub(crate) fn copy_of(rt: &HostRuntime, bytes: &[u8]) -> io::Result<Text> {
    Text::copy_of(rt.alloc(), bytes).map_err(|_| no_memory())
}

/// The names in this directory of the disk, in the order of their bytes.
pub(crate) fn names_on_disk(rt: &HostRuntime, dir: &str) -> io::Result<Texts> {
    let mut names = Vec::new(rt.alloc());
    for entry in read_dir(rt, dir)? {
        names.push(copy_of(rt, entry?.file_name().as_bytes())?)?;
    }
    names.sort()?;
    Ok(Texts::from_vec(names))
}

/// Whether anything is at this path of the disk.
pub fn is_there(rt: &HostRuntime, path: &str) -> bool {
    fs::symlink_metadata(rt, path).is_ok()
}

/// The inode at this path of the disk.
pub fn inode_of(rt: &HostRuntime, path: &str) -> io::Result<u64> {
    Ok(fs::symlink_metadata(rt, path)?.ino())
}

/// The number of temporary links in this directory of the disk.
pub fn temporaries_in(rt: &HostRuntime, dir: &str) -> io::Result<u64> {
    let mut count = 0u64;
    for entry in read_dir(rt, dir)? {
        if entry?.file_name().starts_with(".ldconfig.tmp") {
            count = count.saturating_add(1);
        }
    }
    Ok(count)
}
