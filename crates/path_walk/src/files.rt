//! The files to which paths and links lead.
ghost use Rattle.std.specs.Prelude.{◌≡◌, IfOk};
ghost use Rattle.image_tree.specs.Tree.{IsTree, kind_at};
ghost use Rattle.image_tree.specs.declared.tree.Kind.TheVariants as kinds;
ghost use Rattle.path_walk.specs.Files.{file_at, file_from, GivesFile};
ghost use Rattle.path_walk.specs.Stops.{IsNextTo};
ghost use Rattle.path_walk.specs.Walk.{start_of};

use crate::names::join;
use crate::walk::{End, LINKS_MAX, Mode, WalkFault, follow, restart};
use lib_types::{NoMemory, Text};
use std::alloc::Global;
use tree_face::{Node, Tree};

// The file to which a path text leads from a directory, if it leads to a file and follows at most `links` links.
fn file_from(
    alloc: Global,
    tree: &Tree,
    folder: Vec<u8>,
    path: &[u8],
    links: usize,
) -> Result<Option<Text>, NoMemory>
    requires { IsTree tree.now }
    ensures { kind_at tree.now folder.items ≡ kinds.Dir → IfOk result (λ file. file ≡ file_from tree.now links path.now folder.items) }
{
    let mut place = folder;
    let left = Vec::from_slice(alloc, path)?;
    match follow(alloc, tree, Mode::Full, &mut place, left, links) {
        Ok(End::File) => Ok(Some(Text::from_vec(place))),
        Ok(End::Dir) => Ok(None),
        Err(WalkFault::NoMemory) => Err(NoMemory),
        Err(_) => Ok(None),
    }
}

/// The file to which a path leads, if it leads to a file. All links are followed.
#[tactic(auto, unfolding(crate::specs::Walk::resolution))]
pub fn file_at(alloc: Global, tree: &Tree, path: &[u8]) -> Result<Option<Text>, NoMemory>
    ensures { IfOk result (λ file. file ≡ file_at tree.now path.now) }
{
    tree.know();
    let root = Vec::from_slice(alloc, b"/")?;
    file_from(alloc, tree, root, path, LINKS_MAX)
}

// The file to which a link's target leads from the link's directory, if at most `links` further links are followed.
fn file_by_target(
    alloc: Global,
    tree: &Tree,
    folder: &[u8],
    target: &[u8],
    links: usize,
) -> Result<Option<Text>, NoMemory>
    requires { IsTree tree.now }
    ensures { kind_at tree.now folder.now ≡ kinds.Dir → IfOk result (λ file. file ≡ file_from tree.now links target.now (start_of target.now folder.now)) }
{
    let mut place = Vec::from_slice(alloc, folder)?;
    restart(&mut place, target)?;
    file_from(alloc, tree, place, target, links)
}

// What a link's target names in the link's directory.
#[derive(Drop)]
enum NextTo<'t> {
    /// A file of this path.
    File(Text),
    /// A link with this target.
    Link(&'t [u8]),
    /// Something else, or nothing.
    Other,
}

// What a link's target names in the link's directory, by one search. A path in a tree consists of names only. So if a target without
// a slash has a node in this directory, the target is a name.
#[tactic(auto, using(crate::proofs::Linked::file_next_to, crate::proofs::Linked::link_next_to))]
fn find_next_to<'t>(
    alloc: Global,
    tree: &'t Tree,
    folder: &[u8],
    target: &[u8],
) -> Result<NextTo<'t>, NoMemory>
    ensures { IfOk result (IsNextTo tree.now folder.now target.now) }
{
    if target.contains(&b'/') {
        return Ok(NextTo::Other);
    }
    let path = join(alloc, folder, target)?;
    match tree.node(path.as_bytes()) {
        Some(Node::File { .. }) => Ok(NextTo::File(path)),
        Some(Node::Link { target }) => Ok(NextTo::Link(target.as_bytes())),
        _ => Ok(NextTo::Other),
    }
}

// The same as `file_by_target`, but faster. Most targets are the name of a file or link in the link's own directory. Those need
// no walk.
#[tactic(auto, using(crate::proofs::Walks::walk_ends, crate::proofs::Walks::walk_follows))]
fn file_next_to(
    alloc: Global,
    tree: &Tree,
    folder: &[u8],
    target: &[u8],
    links: usize,
) -> Result<Option<Text>, NoMemory>
    requires { IsTree tree.now }
    ensures { kind_at tree.now folder.now ≡ kinds.Dir → IfOk result (λ file. file ≡ file_from tree.now links target.now (start_of target.now folder.now)) }
{
    let mut left = links;
    let mut text = target;
    while left > 0 {
        match find_next_to(alloc, tree, folder, text)? {
            NextTo::File(path) => return Ok(Some(path)),
            NextTo::Link(next) => text = next,
            NextTo::Other => break,
        }
        left -= 1;
    }
    file_by_target(alloc, tree, folder, text, left)
}

/// The file to which a link in a directory leads, given the link's target, if it leads to a file. The walk begins at the link.
///
/// Most targets name a file in the link's own directory. Such a target costs one search of the tree and the memory of the result.
/// Any other target is walked from the directory, with one search for each name, or two searches if the name has no node.
pub fn linked_file(
    alloc: Global,
    tree: &Tree,
    folder: &[u8],
    target: &[u8],
) -> Result<Option<Text>, NoMemory>
    ensures file { GivesFile tree.now folder.now target.now result }
{
    tree.know();
    file_next_to(alloc, tree, folder, target, LINKS_MAX - 1)
}
