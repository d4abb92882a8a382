//! The binary search.
ghost use Rattle.std.specs.Prelude.{◌≡◌, ◌<◌, ◌≤◌, ◌+◌, ◌-◌, ◌^◌, ℕ, length};
ghost use Rattle.lib_types.specs.Counts.{raised};
ghost use Rattle.cache_lookup.specs.Scan.{AreDescending, chosen};
ghost use Rattle.cache_lookup.specs.Probing.{IsFast, count_equal, rank_of};
ghost use Rattle.cache_lookup.specs.Searches.{AreAbove, AreNotAbove, AreEqual, Halves, IsLeast};

use crate::choice::{better, index_of};
use crate::probes::Probes;
use lib_types::{Abi, Texts};
use std::cmp::Ordering;

// The index of the first entry whose name isn't above this name.
fn first_not_above<P: Probes>(probes: &mut P, name: &[u8], abi: Abi, caps: &Texts) -> usize
    requires { AreDescending (P.state probes.old).entries }
    ensures entries { (P.state probes.new).entries ≡ (P.state probes.old).entries }
    ensures within { result ≤ length (P.state probes.old).entries }
    ensures above { AreAbove name.now (P.state probes.old).entries result }
    ensures others { AreNotAbove name.now (P.state probes.old).entries result }
    ensures steps { (k : ℕ) → length (P.state probes.old).entries < 2 ^ k → (P.state probes.new).steps ≤ raised (P.state probes.old).steps k }
{
    let mut low = 0;
    let mut high = probes.len();
    while low < high {
        let middle = low + (high - low) / 2;
        if probes.probe(middle, name, abi, caps).order == Ordering::Greater {
            low = middle + 1;
        } else {
            high = middle;
        }
    }
    low
}

// The best candidate among the entries that are equal to the name in the loader's order. The first of these entries is at `start`.
fn best_from<P: Probes>(
    probes: &mut P,
    start: usize,
    name: &[u8],
    abi: Abi,
    caps: &Texts,
) -> Option<usize>
    requires sorted { AreDescending (P.state probes.old).entries }
    requires above { AreAbove name.now (P.state probes.old).entries start }
    requires others { AreNotAbove name.now (P.state probes.old).entries start }
    requires within { start ≤ length (P.state probes.old).entries }
    ensures entries { (P.state probes.new).entries ≡ (P.state probes.old).entries }
    ensures chosen { result ≡ chosen (P.state probes.old).entries name.now abi caps.now }
    ensures steps { (P.state probes.new).steps ≤ raised (P.state probes.old).steps (1 + count_equal name.now (P.state probes.old).entries) }
{
    let mut best = None;
    for index in start..probes.len() {
        let probe = probes.probe(index, name, abi, caps);
        if probe.order != Ordering::Equal {
            return index_of(best);
        }
        best = better(best, index, probe.rank);
    }
    index_of(best)
}

/// The index of the entry that the loader takes for this name, ABI and list of hwcaps names, by binary search.
pub fn lookup<P: Probes>(probes: &mut P, name: &[u8], abi: Abi, caps: &Texts) -> Option<usize>
    requires { AreDescending (P.state probes.old).entries }
    ensures entries { (P.state probes.new).entries ≡ (P.state probes.old).entries }
    ensures chosen { result ≡ chosen (P.state probes.old).entries name.now abi caps.now }
    ensures steps { IsFast name.now (P.state probes.old) (P.state probes.new) }
{
    let start = first_not_above(probes, name, abi, caps);
    best_from(probes, start, name, abi, caps)
}
