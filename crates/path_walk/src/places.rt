//! The places from which a walk goes on.
ghost use Rattle.std.specs.Prelude.{◌≡◌, IfOk};
ghost use Rattle.path_walk.specs.Names.{parent};
ghost use Rattle.path_walk.specs.Walk.{start_of, target_at};

use crate::names::{is_absolute, parted};
use lib_types::{NoMemory, Text};
use std::alloc::Global;
use tree_face::{Node, Tree};

/// The directory of a path.
pub fn parent_of(alloc: Global, place: &[u8]) -> Result<Text, NoMemory>
    ensures { IfOk result (λ folder. folder ≡ parent place.now) }
{
    Text::copy_of(alloc, parted(place).0)
}

/// The directory in which a link's target starts: the root if the target is absolute, otherwise the link's directory.
pub fn start_of(alloc: Global, place: Text, target: &[u8]) -> Result<Text, NoMemory>
    ensures { IfOk result (λ start. start ≡ start_of target.now place) }
{
    if is_absolute(target) {
        Text::copy_of(alloc, b"/")
    } else {
        Ok(place)
    }
}

/// The target of the link at a path.
pub fn target_of(alloc: Global, tree: &Tree, path: &[u8]) -> Result<Text, NoMemory>
    ensures { IfOk result (λ target. target ≡ target_at tree.now path.now) }
{
    match tree.node(path) {
        Some(Node::Link { target }) => Text::copy_of(alloc, target.as_bytes()),
        _ => Text::copy_of(alloc, b""),
    }
}
