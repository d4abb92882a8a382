//! The links that an update made, by their paths.
ghost use Rattle.std.specs.Prelude.{◌≡◌, IfOk};
ghost use Rattle.search_listing.specs.Listing.{is_made};

use lib_types::{NoMemory, Text};
use link_plan::Planned;
use std::alloc::Global;
use std::marker::Model;
use string_pool::TextSet;

/// The links that an update made. Contracts see the list of the links.
///
/// The time of a look-up doesn't depend on the number of links.
#[derive(Drop)]
pub(crate) struct Made<'a> {
    links: &'a [Planned],
    paths: TextSet,
}

impl<'a> Model for Made<'a> {
    ghost use Rattle.std.specs.Prelude.{List};
    ghost use Rattle.link_plan.specs.declared.kinds.Planned.{Planned};
    ghost use Rattle.search_listing.specs.MadePaths.{ArePathsOf};

    ghost Value = { List Planned };

    ghost view = { λ m. m.links.now };

    ghost invariant = { λ m. ArePathsOf m.links.now m.paths };
}

impl<'a> Made<'a> {
    /// Makes the set of these links.
    pub(crate) fn of(alloc: Global, links: &'a [Planned]) -> Result<Made<'a>, NoMemory>
        ensures { IfOk result (λ made. made ≡ links.now) }
    {
        let mut paths = TextSet::new(alloc);
        for link in links {
            paths.insert(Text::copy_of(alloc, link.path.as_bytes())?)?;
        }
        Ok(Made { links, paths })
    }

    /// Whether the link with this path was made.
    pub(crate) fn has(&self, path: &[u8]) -> bool
        ensures { result ≡ is_made self.now path.now }
    {
        self.paths.contains(path)
    }
}
