//! The changes of an in-memory directory, and what a crash leaves of it.
ghost use Rattle.std.specs.Prelude.{◌≡◌, ◌<◌, Some, length, reverse, slice_get};
ghost use Rattle.std.specs.Option.{option_copied};
ghost use Rattle.root_folder.specs.Past.{found_before, is_settled_by, left_in};

use crate::nodes::is_same_found;
use lib_types::Text;
use path_walk::parted;
use tree_face::Node;

/// A call that changed the tree, or changed what a crash leaves of it.
#[derive(Drop)]
pub enum Change {
    /// A link was made at the path. `before` is what was there before.
    Linked { path: Text, before: Option<Node> },
    Settled { dir: Text },
}

// Whether the change is an fsync of the path's directory.
fn is_settled_by(change: &Change, path: &[u8]) -> bool
    ensures { result ≡ is_settled_by path.now change.now }
{
    match change {
        Change::Linked { .. } => false,
        Change::Settled { dir } => parted(path).0 == dir.as_bytes(),
    }
}

// What was at the path before the change, given what was there after it.
fn found_before<'a>(change: &'a Change, path: &[u8], now: Option<&'a Node>) -> Option<&'a Node>
    ensures { option_copied result ≡ found_before path.now (option_copied now.entry) change.now }
{
    match change {
        Change::Linked { path: at, before } if at.as_bytes() == path => before.as_ref(),
        _ => now,
    }
}

fn change_at(changes: &[Change], i: usize) -> &Change
    requires { i < length changes.now }
    ensures { slice_get changes.now i ≡ Some result.now }
{
    &changes[i]
}

/// Whether a crash may leave this at the path, given what is there now and the changes, oldest first.
#[tactic(auto, using(crate::proofs::Walk::settled_here, crate::proofs::Walk::goes_back, crate::proofs::Walk::left_at_once))]
pub fn may_leave(path: &[u8], now: Option<&Node>, changes: &[Change], found: Option<&Node>) -> bool
    ensures { result ≡ left_in path.now (option_copied now.entry) (reverse changes.now) (option_copied found.entry) }
{
    let mut there = now;
    let mut left = changes.len();
    while left > 0 {
        if is_same_found(there, found) {
            return true;
        }
        left -= 1;
        let change = change_at(changes, left);
        if is_settled_by(change, path) {
            return false;
        }
        there = found_before(change, path, there);
    }
    is_same_found(there, found)
}
