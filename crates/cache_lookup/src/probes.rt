//! What a search sees of the entries of a cache.
ghost use Rattle.std.specs.Prelude.{◌≡◌, ◌<◌, length, slice_get, IfSome};
ghost use Rattle.lib_types.specs.Counts.{raised};
ghost use Rattle.cache_lookup.specs.Probing.{Probed, order_to, rank_of};

use lib_types::{Abi, Texts};
use std::cmp::Ordering;

/// The result of probing an entry.
#[derive(Clone, Copy)]
pub struct Probe {
    /// How the entry's name compares to the looked-up name, in the loader's order.
    pub order: Ordering,
    /// The rank of a candidate, None if the entry isn't one. It is the index of the entry's hwcaps name in the caller's list. If the
    /// entry is
    /// for any processor, it is the length of the list.
    pub rank: Option<usize>,
}

/// The entries of a cache. A search probes them one at a time, and each probe counts as a step.
pub trait Probes {
    ghost state: { Self → Probed };

    /// The number of entries.
    fn len(&self) -> usize
        ensures { result ≡ length (state self.now).entries };

    /// Probes the entry with this index.
    fn probe(&mut self, i: usize, name: &[u8], abi: Abi, caps: &Texts) -> Probe
        requires { i < length (state self.old).entries }
        ensures entries { (state self.new).entries ≡ (state self.old).entries }
        ensures steps { (state self.new).steps ≡ raised (state self.old).steps 1 }
        ensures order { IfSome (slice_get (state self.old).entries i) (λ e. result.order ≡ order_to name.now e) }
        ensures rank { IfSome (slice_get (state self.old).entries i) (λ e. result.rank ≡ rank_of name.now abi caps.now e) };
}
