//! The targets of the names in a directory, from the links that were followed there.
ghost use Rattle.std.specs.Prelude.{◌≡◌, IfOk, IfSome};
ghost use Rattle.image_tree.specs.Paths.{join};
ghost use Rattle.library_files.specs.Places.{links_to};
ghost use Rattle.library_files.specs.Search.{folder_links};
ghost use Rattle.cache_entries.specs.LinksOf.{AreLeftOf, IsTargetAmong};

use hwcap_dirs::Place;
use lib_types::{NoMemory, are_same, compare_bytes};
use library_files::{FolderLinks, FollowedIter, links_to};
use path_walk::join_into;
use std::alloc::Global;
use std::cmp::Ordering;
use std::marker::Model;
use tree_face::Tree;

// The target of the link with this name, if it is among the links that are left. Links with smaller names are skipped.
#[tactic(auto, using(crate::proofs::LinksOf::all_left, crate::proofs::LinksOf::first_target))]
fn target_of<'a>(left: &mut FollowedIter<'a>, name: &[u8]) -> Option<&'a [u8]>
    ensures left { AreLeftOf left.old left.new }
    ensures target { IfSome result (λ target. IsTargetAmong left.old name.now target.now) }
{
    while let Some(link) = left.first() {
        match compare_bytes(link.name, name) {
            Ordering::Less => {
                left.next();
            }
            Ordering::Equal => return Some(link.target),
            Ordering::Greater => return None,
        }
    }
    None
}

/// The links of a directory. Callers ask for them by ascending names, so one pass is enough. Contracts see the directory.
#[derive(Drop)]
pub(crate) struct LinksOf<'a> {
    tree: &'a Tree,
    folder: &'a [u8],
    // The links that were not skipped yet.
    left: FollowedIter<'a>,
    // A buffer for the path of a link.
    path: Vec<u8>,
}

impl<'a> Model for LinksOf<'a> {
    ghost use Rattle.cache_entries.specs.LinksOf.{AreLinked, Folder};

    ghost Value = { Folder };

    ghost view = { λ l. record { tree = l.tree.now; path = l.folder.now } };

    ghost invariant = { λ l. AreLinked (record { tree = l.tree.now; path = l.folder.now }) l.left };
}

impl<'a> LinksOf<'a> {
    /// The followed links of the search directory.
    #[tactic(auto, using(crate::proofs::LinksOf::all_linked))]
    pub(crate) fn new(
        alloc: Global,
        tree: &'a Tree,
        place: &'a Place,
        links: &'a FolderLinks,
    ) -> LinksOf<'a>
        requires { links.now ≡ folder_links tree.now place.now }
        ensures { result ≡ record { tree = tree.now; path = place.now.real } }
    {
        LinksOf {
            tree,
            folder: place.real.as_bytes(),
            left: links.links.iter(),
            path: Vec::new(alloc),
        }
    }

    /// Whether the directory has a link from the first name to the second. A followed link is found without searching the tree. The tree
    /// is
    /// searched if the name isn't a library name or the link is missing.
    #[tactic(auto, using(crate::proofs::LinksOf::still_linked))]
    pub(crate) fn has(&mut self, name: &[u8], target: &[u8]) -> Result<bool, NoMemory>
        ensures same { self.new ≡ self.old }
        ensures leads { IfOk result (λ leads. leads ≡ links_to self.old.tree (join self.old.path name.now) target.now) }
    {
        if let Some(there) = target_of(&mut self.left, name) {
            return Ok(are_same(there, target));
        }
        join_into(&mut self.path, self.folder, name)?;
        Ok(links_to(self.tree, self.path.as_slice(), target))
    }
}
