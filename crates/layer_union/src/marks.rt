//! The special names of layers.
ghost use Rattle.std.specs.Prelude.{◌≡◌, nat_eq, drop};
ghost use Rattle.std.specs.List.{starts_with};
ghost use Rattle.std.specs.Str.{bytes_eq};
ghost use Rattle.layer_union.specs.Whiteouts.{is_special, is_bad, opaque_name, prefix, reserved};

use lib_types::{Separator, has_byte, is_name, split};
use path_walk::parted;

// The name that makes its directory opaque.
const OPAQUE: &[u8] = b".wh..wh..opq";

// What the other reserved names begin with.
const RESERVED: &[u8] = b".wh..wh.";

// What a special name begins with.
const PREFIX: &[u8] = b".wh.";

// Whether the name is special.
fn is_special_name(name: &[u8]) -> bool
    ensures { result ≡ starts_with nat_eq name.now prefix }
{
    name.starts_with(PREFIX)
}

// Whether a component of the path is a special name.
fn has_special_name(path: &[u8]) -> bool
    ensures { result ≡ is_special path.now }
{
    for name in split(Separator::Byte(b'/'), path) {
        if is_special_name(name) {
            return true;
        }
    }
    false
}

/// Whether a component of the path begins with `.wh.`.
#[tactic(auto, using(crate::proofs::Dots::plain_without_dot))]
pub(crate) fn is_special(path: &[u8]) -> bool
    ensures { result ≡ is_special path.now }
{
    // Many paths have no dot. One search for it is faster than one for each slash.
    has_byte(b'.', path) && has_special_name(path)
}

/// Whether the name makes its directory opaque.
pub(crate) fn is_opaque_name(name: &[u8]) -> bool
    ensures { result ≡ bytes_eq name.now opaque_name }
{
    name == OPAQUE
}

/// Whether the name is reserved. Reserved names mark no path.
pub(crate) fn is_reserved(name: &[u8]) -> bool
    ensures { result ≡ starts_with nat_eq name.now reserved }
{
    name.starts_with(RESERVED)
}

/// The name that a whiteout with this name marks.
pub(crate) fn marked_name(name: &[u8]) -> &[u8]
    ensures { result.now ≡ drop 4 name.now }
{
    if name.len() < 4 { b"" } else { &name[4..] }
}

/// Whether the path is that of a whiteout whose rest isn't a name.
pub(crate) fn is_bad(path: &[u8]) -> bool
    ensures { result ≡ is_bad path.now }
{
    if !is_special(path) {
        return false;
    }
    let (folder, name) = parted(path);
    !is_special(folder) && !is_reserved(name) && !is_name(marked_name(name))
}
