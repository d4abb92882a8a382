//! The images of a sample that are updated.
ghost use Rattle.std.specs.Prelude.{◌≡◌, fold, IfOk, OnOk};
ghost use Rattle.image_session.specs.Edit.{with_node};
ghost use Rattle.sample_runs.specs.Files.{sample_files};
ghost use Rattle.sample_runs.specs.Images.{all_replaced, empty_image, first_image, node_of, with_files, with_newer, with_replaced};

use crate::files::{SampleFile, content, hwcaps_path, key, library_path};
use aux_cache::Stamps;
use image_session::Session;
use lib_types::{NoMemory, Text};
use std::alloc::Global;
use tree_face::{Id, Node, Tree, is_node, is_path};

// An image without nodes or stamps.
fn empty_image(alloc: Global) -> Session
    ensures { result ≡ empty_image }
{
    Session {
        tree: Tree::new(alloc),
        stamps: Stamps::new(alloc),
        edited: false,
        damaged: None,
    }
}

// A node of a library's file.
fn node_of(alloc: Global, file: SampleFile, inode: u64, ctime: u64) -> Result<Node, NoMemory>
    ensures { IfOk result (λ node. node ≡ node_of file inode ctime) }
{
    let size = content(alloc, file)?.len() as u64;
    Ok(Node::File {
        key: key(alloc, file)?,
        id: Some(Id {
            dev: 1,
            inode,
            ctime,
            size,
        }),
    })
}

// Puts the node at the path. The paths are valid, and no two of them clash.
#[tactic(auto, using(crate::proofs::Putting::is_put))]
fn put(image: &mut Session, path: &Text, node: Node) -> Result<(), NoMemory>
    ensures { OnOk result (image.new ≡ with_node image.old path.now node) }
{
    if !is_path(path.as_bytes()) || !is_node(&node) {
        return Err(NoMemory);
    }
    match image.put(path.as_bytes(), node) {
        Ok(()) => Ok(()),
        Err(_) => Err(NoMemory),
    }
}

// Puts the files of a library, one of n.
fn put_files(alloc: Global, image: &mut Session, n: u16, file: SampleFile) -> Result<(), NoMemory>
    ensures { OnOk result (image.new ≡ with_files n image.old file) }
{
    let node = node_of(alloc, file, u64::from(file.index) + 1, 1)?;
    put(
        image,
        &library_path(alloc, file, u64::from(file.minor))?,
        node,
    )?;
    if file.index % 4 == 3 {
        let inode = u64::from(n) + u64::from(file.index) + 1;
        let node = node_of(alloc, file, inode, 1)?;
        put(image, &hwcaps_path(alloc, file)?, node)?;
    }
    Ok(())
}

/// The image of the first update.
#[tactic(auto, unfolding(crate::specs::Images::first_image))]
pub(crate) fn first_image(alloc: Global, n: u16, files: &[SampleFile]) -> Result<Session, NoMemory>
    requires { files.now ≡ sample_files n }
    ensures { IfOk result (λ image. image ≡ first_image n) }
{
    let mut image = empty_image(alloc);
    for file in files {
        put_files(alloc, &mut image, n, *file)?;
    }
    Ok(image)
}

// Removes the file of a library, and puts a newer one.
#[tactic(auto, using(crate::proofs::Putting::is_removed))]
fn put_newer(alloc: Global, image: &mut Session, file: SampleFile) -> Result<(), NoMemory>
    ensures { OnOk result (image.new ≡ with_newer image.old file) }
{
    let node = node_of(alloc, file, u64::from(file.index) + 1, 2)?;
    let old = library_path(alloc, file, u64::from(file.minor))?;
    let newer = library_path(alloc, file, u64::from(file.minor) + 1)?;
    if image.remove(old.as_bytes()).is_err() {
        return Err(NoMemory);
    }
    put(image, &newer, node)
}

// The same for a library that is replaced.
fn replace(alloc: Global, image: &mut Session, file: SampleFile) -> Result<(), NoMemory>
    ensures { OnOk result (image.new ≡ with_replaced image.old file) }
{
    if file.index % 10 != 0 {
        return Ok(());
    }
    put_newer(alloc, image, file)
}

/// Replaces each tenth library.
pub(crate) fn replace_all(
    alloc: Global,
    image: Session,
    n: u16,
    files: &[SampleFile],
) -> Result<Session, NoMemory>
    requires { files.now ≡ sample_files n }
    ensures { IfOk result (λ replaced. replaced ≡ all_replaced n image) }
{
    let mut image = image;
    for file in files {
        replace(alloc, &mut image, *file)?;
    }
    Ok(image)
}
