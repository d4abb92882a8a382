//! Checks that a cache is sorted in the order in which the loader searches it.
ghost use Rattle.std.specs.Prelude.{◌≡◌, ◌<◌, length, IfOk, IfErr, IfSome, IfNone};
ghost use Rattle.cache_reader.specs.Cache.{read};
ghost use Rattle.cache_lookup.specs.Scan.{AreDescending, IsFirstRise};
ghost use Rattle.cache_lookup.specs.Searches.{IsNameAt};
ghost use Rattle.cache_lookup.specs.Sorted.{sorted_in};

use crate::entries::Sorted;
use cache_reader::{CacheDefect, CacheView};
use name_order::compare_tokens;
use std::cmp::Ordering;

/// The cache isn't sorted. `entry` is the first entry whose name is greater than the name before it.
#[derive(Clone, Copy, Debug, PartialEq, Eq)]
pub struct Unsorted {
    pub entry: u32,
}

// The name of the entry with this index.
fn name_at<'a>(view: &CacheView<'a>, index: usize) -> &'a [u8]
    requires { index < length (read view.now) }
    ensures { IsNameAt (read view.now) index result.now }
{
    view.entry_within(index).name
}

// The first entry whose name is greater than the name before it.
fn first_rise(view: &CacheView<'_>) -> Option<u32>
    ensures rise { IfSome result (IsFirstRise (read view.now)) }
    ensures none { IfNone result (AreDescending (read view.now)) }
{
    if view.len() == 0 {
        return None;
    }
    let mut before = name_at(view, 0);
    for index in 1..view.len() {
        let name = name_at(view, index);
        if compare_tokens(before, name) == Ordering::Less {
            return Some(index as u32);
        }
        before = name;
    }
    None
}

/// The cache for searches. Fails if its names aren't descending in the loader's order.
pub fn sorted<'a>(view: CacheView<'a>) -> Result<Sorted<'a>, Unsorted>
    ensures entries { IfOk result (λ s. s ≡ read view.entry) }
    ensures sorted { IfOk result (λ _. AreDescending (read view.entry)) }
    ensures unsorted { IfErr result (λ u. IsFirstRise (read view.entry) u.entry) }
{
    match first_rise(&view) {
        Some(entry) => Err(Unsorted { entry }),
        None => Ok(Sorted { view }),
    }
}

/// The cache of these bytes for searches, or its first defect. All commands that search a cache take it from its bytes by this function.
#[tactic(auto, using(crate::proofs::FirstRise::no_rise))]
pub fn sorted_cache(bytes: &[u8]) -> Result<Sorted<'_>, CacheDefect>
    ensures entries { result ≡ sorted_in bytes.now }
    ensures read { IfOk result (λ s. s ≡ read bytes.now) }
    ensures sorted { IfOk result AreDescending }
{
    let view = CacheView::parse(bytes)?;
    match sorted(view) {
        Ok(cache) => Ok(cache),
        Err(unsorted) => Err(CacheDefect::Unsorted {
            entry: u64::from(unsorted.entry),
        }),
    }
}
