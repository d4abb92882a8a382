//! Paths of a tree and their order.
ghost use Rattle.std.specs.Prelude.{◌≡◌, ◌≢◌, ℕ, ◌+◌, ◌==◌, ◌^◌, ◌<◌, ◌≤◌, IsTrue, length, drop, nat_eq};
ghost use Rattle.image_tree.specs.Paths.{is_path, is_kept, are_names, path_cmp, path_rank, stem, folder, is_below, is_above, name_after};
ghost use Rattle.std.specs.List.{starts_with};
ghost use Rattle.std.specs.Ordering.{nat_cmp};

use lib_types::{are_same, before_byte, equal_len, is_name};
use std::cmp::Ordering;

/// The maximum length of a path in bytes.
pub const PATH_MAX: usize = 4095;

/// Whether the bytes are a path below the root.
pub fn is_path(path: &[u8]) -> bool
    ensures { result ≡ is_path path.now }
{
    path.len() <= PATH_MAX && path.starts_with(b"/") && are_names(&path[1..])
}

// Whether the bytes are names, separated by slashes.
fn are_names(bytes: &[u8]) -> bool
    ensures { result ≡ are_names bytes.now }
{
    bytes.split(|&b| b == b'/').all(|name| is_name(name))
}

/// Whether a component of a path is kept. An empty component and `.` are dropped.
pub fn is_kept(component: &[u8]) -> bool
    ensures { result ≡ is_kept component.now }
{
    !component.is_empty() && component != b".".as_slice()
}

// The order of two different bytes. The slash is below every other byte.
#[tactic(auto, using(crate::proofs::Order::slash_below, crate::proofs::Order::slash_above, crate::proofs::Order::others_alike))]
fn compare_ranks(a: u8, b: u8) -> Ordering
    requires { a ≢ b }
    ensures { result ≡ nat_cmp (path_rank a) (path_rank b) }
{
    if a == b'/' {
        return Ordering::Less;
    }
    if b == b'/' {
        return Ordering::Greater;
    }
    a.cmp(&b)
}

/// The order of the paths in a tree.
#[tactic(auto, using(crate::proofs::Order::byte_decides, crate::proofs::Order::lengths_decide))]
pub(crate) fn compare(a: &[u8], b: &[u8]) -> Ordering
    ensures { result ≡ path_cmp a.now b.now }
{
    let same = equal_len(a, b);
    if same < a.len() && same < b.len() {
        return compare_ranks(a[same], b[same]);
    }
    a.len().cmp(&b.len())
}

// The path without its trailing slash. Only the root has one.
fn stem(path: &[u8]) -> &[u8]
    ensures { result.now ≡ stem path.now }
{
    if path == b"/".as_slice() { b"" } else { path }
}

/// Whether the path begins with these bytes.
#[tactic(auto, using(crate::proofs::Fronts::too_short))]
pub(crate) fn begins_with(path: &[u8], front: &[u8]) -> bool
    ensures { result ≡ starts_with nat_eq path.now front.now }
{
    if path.len() < front.len() {
        return false;
    }
    are_same(front, &path[..front.len()])
}

/// Whether the other path lies below this one. One byte rules out most paths that don't.
#[tactic(auto, using(crate::proofs::Fronts::below_laws))]
pub fn is_below(path: &[u8], other: &[u8]) -> bool
    ensures { result ≡ is_below path.now other.now }
{
    let front = stem(path);
    if other.len() <= front.len() || other[front.len()] != b'/' {
        return false;
    }
    begins_with(other, front)
}

/// Whether the path lies below the text. No path lies below the empty text, although each begins with a slash.
pub(crate) fn is_above(text: &[u8], path: &[u8]) -> bool
    ensures { result ≡ is_above text.now path.now }
{
    !text.is_empty() && is_below(text, path)
}

/// The offset of the child's name in each path below this one.
fn folder_len(path: &[u8]) -> usize
    requires { length path.now < 2 ^ 32 }
    ensures { result ≡ length (folder path.now) }
{
    stem(path).len() + 1
}

/// The prefix of a path below this one, up to the name of the child.
pub(crate) fn folder_in<'a>(path: &[u8], other: &'a [u8]) -> &'a [u8]
    requires short { length path.now < 2 ^ 32 }
    requires below { IsTrue (is_below path.now other.now) }
    ensures { result.now ≡ folder path.now }
{
    &other[..folder_len(path)]
}

/// The name that begins at this offset of a path.
pub(crate) fn name_from(path: &[u8], start: usize) -> &[u8]
    ensures { result.now ≡ name_after start path.now }
{
    match path.get(start..) {
        Some(rest) => before_byte(b'/', rest),
        None => b"",
    }
}
