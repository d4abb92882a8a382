//! Paths of a tree as names below the directory of the image.
ghost use Rattle.std.specs.Prelude.{◌≡◌, ◌∷◌, IfSome};

use device_rules::following;
use std::io::{Error, ErrorKind};
use std::str::from_utf8;
use tree_face::is_path;

/// A path without its first slash. It is None for the root, and for a text that isn't a path.
pub(crate) fn below_root(path: &[u8]) -> Option<&str>
    ensures { IfSome result (λ below. path.now ≡ 47 ∷ below.now) }
{
    if is_path(path) {
        without_slash(path)
    } else {
        None
    }
}

/// A directory's path without its first slash. It is empty for the root.
pub(crate) fn dir_below_root(dir: &[u8]) -> Option<&str>
    ensures { IfSome result (λ below. dir.now ≡ 47 ∷ below.now) }
{
    if dir == b"/".as_slice() {
        return without_slash(dir);
    }
    below_root(dir)
}

fn without_slash(path: &[u8]) -> Option<&str>
    ensures { IfSome result (λ below. path.now ≡ 47 ∷ below.now) }
{
    match from_utf8(path) {
        Ok(text) => following(text, "/"),
        Err(_) => None,
    }
}

/// The error of a text that isn't a path.
pub(crate) fn no_path() -> Error {
    Error::new(ErrorKind::InvalidInput, "not a path of an image")
}
