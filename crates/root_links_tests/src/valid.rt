//! Whether links may be made.
ghost use Rattle.std.specs.Prelude.{◌≡◌};
ghost use Rattle.image_tree.specs.Node.{has_no_nul, is_target};
ghost use Rattle.root_links.specs.Links.{are_valid, is_valid, link_of, links_in};

use root_links::NewLink;
use tree_face::{NODE_TEXT_MAX, is_path};

fn has_no_nul(bytes: &[u8]) -> bool
    ensures { result ≡ has_no_nul bytes.now }
{
    bytes.iter().all(|&b| b != 0)
}

fn is_target(target: &[u8]) -> bool
    ensures { result ≡ is_target target.now }
{
    !target.is_empty() && target.len() <= NODE_TEXT_MAX && has_no_nul(target)
}

fn is_valid(link: &NewLink<'_>) -> bool
    ensures { result ≡ is_valid (link_of link.now) }
{
    is_path(link.path) && is_target(link.target)
}

/// Whether each path is a path, and each target that of a link.
pub fn are_valid(links: &[NewLink<'_>]) -> bool
    ensures { result ≡ are_valid (links_in links.now) }
{
    match links.split_first() {
        Some((first, rest)) => is_valid(first) && are_valid(rest),
        None => true,
    }
}
