//! The entries of a cache, read in place, with a count of the probes.
ghost use Rattle.std.specs.Prelude.{◌≡◌, ◌<◌, IfSome, length, slice_get};
ghost use Rattle.std.specs.List.{position};
ghost use Rattle.std.specs.Str.{bytes_eq};
ghost use Rattle.cache_reader.specs.Views.{entry_of};
ghost use Rattle.cache_lookup.specs.Scan.{AreDescending, is_candidate, uses};
ghost use Rattle.cache_lookup.specs.Probing.{order_to, rank_of};
ghost use Rattle.cache_lookup.specs.Searches.{IsEntryOf, IsTied};

use crate::entries::Sorted;
use crate::probes::{Probe, Probes};
use cache_reader::{CacheView, EntryView};
use lib_types::{Abi, Steps, Texts};
use name_order::compare_tokens;
use std::marker::Model;

/// The entries of a sorted cache. Each probe of an entry counts as a step.
#[derive(Drop)]
pub struct Counted<'s, 'a> {
    view: &'s CacheView<'a>,
    steps: Steps,
}

impl<'s, 'a> Model for Counted<'s, 'a> {
    ghost use Rattle.cache_reader.specs.Cache.{read};
    ghost use Rattle.cache_lookup.specs.Probing.{Probed};

    ghost Value = { Probed };

    ghost view = { λ c. record { entries = read c.view.now; steps = c.steps } };
}

impl<'s, 'a> Counted<'s, 'a> {
    /// The entries, with 0 steps.
    pub fn new(sorted: &'s Sorted<'a>) -> Counted<'s, 'a>
        ensures entries { result.entries ≡ sorted.now }
        ensures sorted { AreDescending result.entries }
        ensures steps { result.steps ≡ 0 }
    {
        Counted {
            view: &sorted.view,
            steps: Steps::new(),
        }
    }

    /// The number of steps.
    pub fn steps(&self) -> u64
        ensures { result ≡ self.now.steps }
    {
        self.steps.count()
    }

    // The entry with this index.
    fn entry(&self, i: usize) -> EntryView<'a>
        requires { i < length self.now.entries }
        ensures value { IsEntryOf self.now.entries i (entry_of result) }
        ensures tied { IsTied (entry_of result) }
    {
        self.view.entry_within(i)
    }
}

/// Whether the entry has this name and this ABI.
pub(crate) fn is_candidate(entry: &EntryView<'_>, name: &[u8], abi: Abi) -> bool
    ensures { result ≡ is_candidate name.now abi (entry_of entry.now) }
{
    entry.flags == abi.flags() && entry.name == name
}

// The index of a hwcaps name in the caller's list. None if it isn't there.
fn cap_index(caps: &Texts, cap: &[u8]) -> Option<usize>
    ensures { result ≡ position (λ text. bytes_eq text cap.now) caps.now }
{
    caps.as_slice()
        .iter()
        .position(|text| text.as_bytes() == cap)
}

// The index of the use that the entry is for.
fn use_of(entry: &EntryView<'_>, caps: &Texts) -> Option<usize>
    requires { IsTied (entry_of entry.now) }
    ensures { result ≡ position (λ fits. fits (entry_of entry.now)) (uses caps.now) }
{
    match entry.cap {
        Some(cap) => cap_index(caps, cap),
        None if entry.hwcap == 0 => Some(caps.len()),
        None => None,
    }
}

fn rank_of(entry: &EntryView<'_>, name: &[u8], abi: Abi, caps: &Texts) -> Option<usize>
    requires { IsTied (entry_of entry.now) }
    ensures { result ≡ rank_of name.now abi caps.now (entry_of entry.now) }
{
    if !is_candidate(entry, name, abi) {
        return None;
    }
    use_of(entry, caps)
}

impl<'s, 'a> Probes for Counted<'s, 'a> {
    ghost state = { λ c. c };

    fn len(&self) -> usize {
        self.view.len()
    }

    fn probe(&mut self, i: usize, name: &[u8], abi: Abi, caps: &Texts) -> Probe {
        self.steps.tick();
        let entry = self.entry(i);
        Probe {
            order: compare_tokens(entry.name, name),
            rank: rank_of(&entry, name, abi, caps),
        }
    }
}
