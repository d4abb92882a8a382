//! The first line of the conf files that names each directory.
ghost use Rattle.std.specs.Prelude.{◌≡◌, IfOk, OnOk};
ghost use Rattle.std.specs.Option.{option_copied};
ghost use Rattle.search_listing.specs.FirstNamed.{IsAdded};
ghost use Rattle.search_listing.specs.Listing.{origin_after, origin_of};

use hwcap_dirs::Place;
use indexmap::IndexMap;
use ldso_conf::{Conf, Origin};
use lib_types::{NoMemory, Text, TextRef};
use std::alloc::Global;
use std::marker::Model;

/// The directories of the conf files, each with the first line that names it. Contracts see the result of reading the conf files.
///
/// The time of a look-up doesn't depend on the number of directories.
#[derive(Drop)]
pub(crate) struct Named<'a> {
    conf: &'a Conf,
    first: IndexMap<Text, &'a Origin>,
}

impl<'a> Model for Named<'a> {
    ghost use Rattle.ldso_conf.specs.declared.kinds.Conf.{Conf};
    ghost use Rattle.search_listing.specs.FirstNamed.{AreFirst};

    ghost Value = { Conf };

    ghost view = { λ n. n.conf.now };

    ghost invariant = { λ n. AreFirst n.conf.now n.first.entries };
}

// Adds a directory with the line that names it, unless an earlier line names it.
#[tactic(auto, using(crate::proofs::FirstNamed::named_before, crate::proofs::FirstNamed::named_here))]
fn add<'a>(
    alloc: Global,
    first: &mut IndexMap<Text, &'a Origin>,
    dir: &[u8],
    origin: &'a Origin,
) -> Result<(), NoMemory>
    ensures { OnOk result (IsAdded first.old.entries dir.now origin.now first.new.entries) }
{
    if !first.contains_key(TextRef { bytes: dir }) {
        first.insert(Text::copy_of(alloc, dir)?, origin)?;
    }
    Ok(())
}

impl<'a> Named<'a> {
    /// The directories of the conf files.
    #[tactic(auto, using(crate::proofs::FirstNamed::goes_on))]
    pub(crate) fn of(alloc: Global, conf: &'a Conf) -> Result<Named<'a>, NoMemory>
        ensures { IfOk result (λ named. named ≡ conf.now) }
    {
        let mut first = IndexMap::new(alloc);
        let dirs = conf.dirs.as_slice();
        for (dir, origin) in dirs.iter().zip(conf.origins.as_slice().iter()) {
            add(alloc, &mut first, dir.as_bytes(), origin)?;
        }
        Ok(Named { conf, first })
    }

    // The first line that names a directory.
    fn origin_of(&self, dir: &[u8]) -> Option<&'a Origin>
        ensures { option_copied result ≡ origin_of self.now dir.now }
    {
        match self.first.get(TextRef { bytes: dir }) {
            Some(origin) => Some(*origin),
            None => None,
        }
    }

    /// The line that names a search directory, if `before` names the search directory before it.
    pub(crate) fn origin_after(
        &self,
        before: Option<&'a Origin>,
        place: &Place,
    ) -> Option<&'a Origin>
        ensures { option_copied result ≡ origin_after self.now (option_copied before.entry) place.now }
    {
        match &place.cap {
            Some(_) => before,
            None => self.origin_of(place.spelled.as_bytes()),
        }
    }
}
