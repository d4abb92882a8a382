//! Tests of search directories and of links in them.
ghost use Rattle.std.specs.Prelude.{◌≡◌};
ghost use Rattle.library_files.specs.Places.{has_no_cap, links_to};

use hwcap_dirs::Place;
use tree_face::{Node, Tree};

/// Whether a search directory is not a `glibc-hwcaps` subdirectory.
pub fn has_no_cap(place: &Place) -> bool
    ensures { result ≡ has_no_cap place.now }
{
    place.cap.is_none()
}

/// Whether the path is a link with this target.
pub fn links_to(tree: &Tree, path: &[u8], text: &[u8]) -> bool
    ensures { result ≡ links_to tree.now path.now text.now }
{
    match tree.node(path) {
        Some(Node::Link { target }) => target.as_bytes() == text,
        _ => false,
    }
}
