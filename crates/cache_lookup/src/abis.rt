//! The ABIs of the entries of a cache.
ghost use Rattle.std.specs.Prelude.{◌≡◌, ◌<◌, ◌∷◌, [], length};
ghost use Rattle.cache_reader.specs.Cache.{read};
ghost use Rattle.cache_lookup.specs.Abis.{IsAbiAt, common_abi, common_with, has_candidate};
ghost use Rattle.cache_lookup.specs.Searches.{IsEntryOf};
ghost use Rattle.cache_reader.specs.Views.{entry_of};

use crate::counted::is_candidate;
use crate::entries::Sorted;
use cache_reader::{CacheView, EntryView};
use lib_types::Abi;

// The common ABI of a first one, if there is one, and of this one.
fn joined(common: Option<Abi>, abi: Abi) -> Option<Abi>
    ensures { result ≡ common_with common (abi ∷ []) }
{
    match common {
        None => Some(abi),
        Some(other) if abi.flags() == other.flags() => Some(other),
        Some(_) => None,
    }
}

// The entry with this index.
fn entry_at<'a>(view: &CacheView<'a>, index: usize) -> EntryView<'a>
    requires { index < length (read view.now) }
    ensures { IsEntryOf (read view.now) index (entry_of result) }
{
    view.entry_within(index)
}

// The ABI of the entry with this index, if it has the flags of one.
fn abi_at(view: &CacheView<'_>, index: usize) -> Option<Abi>
    requires { index < length (read view.now) }
    ensures { IsAbiAt (read view.now) index result }
{
    let flags = entry_at(view, index).flags;
    Abi::of_flags(flags)
}

fn common_abi(view: &CacheView<'_>) -> Option<Abi>
    ensures { result ≡ common_abi (read view.now) }
{
    let mut common = None;
    for index in 0..view.len() {
        if let Some(abi) = abi_at(view, index) {
            common = Some(joined(common, abi)?);
        }
    }
    common
}

fn has_candidate(view: &CacheView<'_>, name: &[u8], abi: Abi) -> bool
    ensures { result ≡ has_candidate (read view.now) name.now abi }
{
    for index in 0..view.len() {
        if is_candidate(&entry_at(view, index), name, abi) {
            return true;
        }
    }
    false
}

impl<'a> Sorted<'a> {
    /// The ABI of the entries, if all entries that have the flags of an ABI have those of one ABI.
    pub fn common_abi(&self) -> Option<Abi>
        ensures { result ≡ common_abi self.now }
    {
        common_abi(&self.view)
    }

    /// Whether an entry has this name and this ABI, for any processor.
    pub fn has_candidate(&self, name: &[u8], abi: Abi) -> bool
        ensures { result ≡ has_candidate self.now name.now abi }
    {
        has_candidate(&self.view, name, abi)
    }
}
