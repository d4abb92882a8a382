//! What is at a path.
ghost use Rattle.std.specs.Prelude.{◌≡◌, ◌↔◌, ◌⊎◌, ◌+◌, ◌*◌, ◌^◌, ◌<◌, IfOk, IfSome, IsTrue, SomeIff, option_map};
ghost use Rattle.image_tree.specs.Node.{is_node};

use crate::extent::Extent;
use crate::listing::copy_of;
use crate::paths::below_root;
use device_rules::{Stamp, divided, is_missing, is_no_text, stamp_of};
use image_folder::{HeldFile, ImageFolder, Missing};
use std::alloc::Global;
use std::fs::{self, Metadata};
use std::io::{self, ErrorKind};
use std::rt::Runtime;
use tree_face::{Id, Node, is_node};

/// The node at a path, if the path belongs to the tree: a directory, a regular file or a link. Any other file counts as a directory,
/// because no link may replace it.
pub(crate) fn look<R: Runtime>(
    alloc: Global,
    image: &mut ImageFolder<R>,
    extent: Extent,
    path: &[u8],
) -> io::Result<Option<Node>>
where
    R::File: HeldFile,
    ensures { IfOk result (λ found. IfSome found (λ node. IsTrue (is_node node))) }
{
    let Some(path) = below_root(path) else {
        return Ok(None);
    };
    if !extent.has(path) {
        return Ok(None);
    }
    match find(image, path)? {
        Some(found) if found.is_file() => file_of(alloc, path, &found),
        Some(found) if found.is_symlink() => link_of(alloc, image, extent),
        Some(_) => Ok(Some(Node::Dir)),
        None => Ok(None),
    }
}

// The file at a path. If a parent isn't a directory, there is none.
fn find<R: Runtime>(image: &mut ImageFolder<R>, path: &str) -> io::Result<Option<Metadata>>
where
    R::File: HeldFile,
{
    let (dir, name) = divided(path);
    match image.enter(dir, Missing::IsFault) {
        Ok(()) => image.look(name),
        Err(error) if is_not_found(error.kind()) => Ok(None),
        Err(error) => Err(error),
    }
}

// The error of a path whose parent is missing or isn't a directory.
fn is_not_found(kind: ErrorKind) -> bool
    ensures { IsTrue result ↔ (kind ≡ ErrorKind.NotFound ⊎ kind ≡ ErrorKind.NotADirectory) }
{
    is_missing(kind) || kind == ErrorKind::NotADirectory
}

fn file_of(alloc: Global, path: &str, found: &Metadata) -> io::Result<Option<Node>>
    ensures { IfOk result (λ found. IfSome found (λ node. IsTrue (is_node node))) }
{
    let key = copy_of(alloc, path)?;
    let id = id_of(stamp_of(found));
    Ok(valid(Node::File { key, id }))
}

// The node of the link that was looked at last. It is None if its target isn't UTF-8 text, or is longer than a tree allows.
fn link_of<R: Runtime>(
    alloc: Global,
    image: &ImageFolder<R>,
    extent: Extent,
) -> io::Result<Option<Node>>
    ensures { IfOk result (λ found. IfSome found (λ node. IsTrue (is_node node))) }
{
    match fs::read_link(&image.rt, image.path()) {
        Ok(target) => {
            let target = copy_of(alloc, extent.target(target.as_str()))?;
            Ok(valid(Node::Link { target }))
        }
        Err(error) if is_no_text(error.kind()) || is_missing(error.kind()) => Ok(None),
        Err(error) => Err(error),
    }
}

// The node, if its key or its target is valid.
fn valid(node: Node) -> Option<Node>
    ensures { IfSome result (λ node. IsTrue (is_node node)) }
{
    if is_node(&node) { Some(node) } else { None }
}

// The identity that a tree has for a file, if its time fits.
fn id_of(stamp: Stamp) -> Option<Id>
    ensures time { SomeIff (option_map (λ id. id.ctime) result) (stamp.changed * 10 ^ 9 + stamp.changed_nanos < 2 ^ 64) (stamp.changed * 10 ^ 9 + stamp.changed_nanos) }
    ensures device { IfSome result (λ id. id.dev ≡ stamp.device) }
    ensures inode { IfSome result (λ id. id.inode ≡ stamp.inode) }
    ensures size { IfSome result (λ id. id.size ≡ stamp.size) }
{
    let ctime = nanos_since_epoch(stamp.changed, stamp.changed_nanos)?;
    Some(Id {
        dev: stamp.device,
        inode: stamp.inode,
        ctime,
        size: stamp.size,
    })
}

// The time in nanoseconds since the epoch. Before the epoch it is None, because the seconds are then the bits of a negative number.
fn nanos_since_epoch(seconds: u64, nanos: u64) -> Option<u64>
    ensures { SomeIff result (seconds * 10 ^ 9 + nanos < 2 ^ 64) (seconds * 10 ^ 9 + nanos) }
{
    seconds.checked_mul(1_000_000_000)?.checked_add(nanos)
}
