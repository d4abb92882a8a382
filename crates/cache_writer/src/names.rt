//! The hwcaps names of a cache.
ghost use Rattle.std.specs.Prelude.{◌≡◌, ◌+◌, ◌≤◌, ◌<◌, length, map, IfOk, OnOk, bytes_eq};
ghost use Rattle.std.specs.List.{position_or_len};
ghost use Rattle.cache_writer.specs.CacheText.{hwcaps_names, with_name};

use indexmap::IndexSet;
use lib_types::{Entry, NoMemory};
use std::alloc::Global;
use std::collections::BTreeSet;
use std::marker::Model;

/// The hwcaps names of the entries, each once, sorted by bytes. Contracts see the list of them.
#[derive(Drop)]
pub struct Names<'a> {
    names: IndexSet<&'a [u8]>,
}

impl<'a> Model for Names<'a> {
    ghost use Rattle.std.specs.Prelude.{ℕ, List, map};

    ghost Value = { List (List ℕ) };

    ghost view = { λ n. map (λ name. name.now) n.names.keys };
}

impl<'a> Names<'a> {
    /// The hwcaps names of these entries.
    #[tactic(auto, using(crate::proofs::Sorted::gathered))]
    pub fn of(alloc: Global, entries: &'a [Entry]) -> Result<Names<'a>, NoMemory>
        ensures { IfOk result (λ names. names ≡ hwcaps_names entries.now) }
    {
        let mut names = IndexSet::new(alloc);
        for name in ascending(alloc, entries)? {
            names.insert(name)?;
        }
        Ok(Names { names })
    }

    #[tactic(auto, using(crate::proofs::Sorted::index_is))]
    /// The index of a name, or the number of names if it isn't in the list.
    pub fn index(&self, name: &[u8]) -> usize
        ensures value { result ≡ position_or_len (bytes_eq name.now) self.now }
        ensures within { result ≤ length self.now }
    {
        self.names.get_index_of(name).unwrap_or(self.names.len())
    }

    /// The number of names.
    pub fn len(&self) -> usize
        ensures { result ≡ length self.now }
    {
        self.names.len()
    }

    /// The names.
    pub fn as_slice(&self) -> &[&'a [u8]]
        ensures { map (λ name. name.now) result.now ≡ self.now }
    {
        self.names.as_slice()
    }
}

// The hwcaps names of these entries, sorted.
#[tactic(auto, unfolding(crate::specs::CacheText::hwcaps_names))]
fn ascending<'a>(alloc: Global, entries: &'a [Entry]) -> Result<BTreeSet<&'a [u8]>, NoMemory>
    ensures { IfOk result (λ names. map (λ name. name.now) names.keys ≡ hwcaps_names entries.now) }
{
    let mut names = BTreeSet::new(alloc);
    for entry in entries {
        add_name(&mut names, entry)?;
    }
    Ok(names)
}

// Adds the hwcaps name of an entry, if the entry has one and it is new.
#[tactic(auto, using(crate::proofs::Sorted::inserted))]
fn add_name<'a>(names: &mut BTreeSet<&'a [u8]>, entry: &'a Entry) -> Result<(), NoMemory>
    ensures { OnOk result (map (λ name. name.now) names.new.keys ≡ with_name (map (λ name. name.now) names.old.keys) entry.now) }
{
    if let Some(cap) = &entry.cap {
        names.insert(cap.as_bytes())?;
    }
    Ok(())
}
