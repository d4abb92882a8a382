//! Items sorted by their sonames.
ghost use Rattle.std.proofs.Common.{refl};
ghost use Rattle.std.specs.Cmp.{eq_by_cmp_equiv, partial_equiv_from_equiv, partial_order_from_total};
ghost use Rattle.std.specs.Ordering.{as_partial_cmp, eq_by_cmp, is_lt, nat_cmp};
ghost use Rattle.std.specs.Cmp.Lexicographic.{slice_cmp};
ghost use Rattle.std.specs.List.{AllByRecursion};
ghost use Rattle.std.specs.Map.{keys_of};
ghost use Rattle.std.specs.Prelude.{◌≡◌, ◌∷◌, ◌++◌, [], Some, None, false, IfOk, MatchOption, OnOk, Option};
ghost use Rattle.string_pool.specs.Order.{AreAscending};
ghost use Rattle.place_libraries.specs.Sonames.{soname_order, soname_order-total, is_last, AreBySoname, AreGathered, AreOrdered, IsGathered};

use lib_types::{NoMemory, compare_bytes};
use std::alloc::Global;
use std::cmp::Ordering;
use std::marker::Model;

/// An item with its soname, by which it is sorted. Contracts see a pair.
#[derive(Drop)]
pub struct BySoname<'a, T> {
    soname: &'a [u8],
    item: T,
}

impl<'a, T> Model for BySoname<'a, T> {
    ghost use Rattle.std.specs.Prelude.{ℕ, List};

    ghost Value = { List ℕ × T };

    ghost view = { λ s. (s.soname.now, s.item) };
}

impl<'a, T> BySoname<'a, T> {
    /// The item of a soname.
    pub fn new(soname: &'a [u8], item: T) -> BySoname<'a, T>
        ensures { result ≡ (soname.now, item) }
    {
        BySoname { soname, item }
    }

    /// The soname.
    pub fn soname(&self) -> &'a [u8]
        ensures { result.now ≡ self.now.0 }
    {
        self.soname
    }

    /// The item.
    pub fn item(&self) -> &T
        ensures { result.now ≡ self.now.1 }
    {
        &self.item
    }

    /// The item, moved.
    pub fn into_item(self) -> T
        ensures { result ≡ self.entry.1 }
    {
        self.item
    }
}

impl<'a, T> PartialEq for BySoname<'a, T> {
    ghost eq = { eq_by_cmp soname_order };

    ghost laws = { partial_equiv_from_equiv (eq_by_cmp_equiv soname_order-total) };

    fn eq(&self, other: &Self) -> bool {
        self.cmp(other).is_eq()
    }
}

impl<'a, T> Eq for BySoname<'a, T> {
    ghost laws = { eq_by_cmp_equiv soname_order-total };
}

impl<'a, T> PartialOrd for BySoname<'a, T> {
    ghost partial_cmp = { as_partial_cmp soname_order };

    ghost laws = { partial_order_from_total soname_order-total };

    fn partial_cmp(&self, other: &Self) -> Option<Ordering> {
        Some(self.cmp(other))
    }
}

impl<'a, T> Ord for BySoname<'a, T> {
    ghost cmp = { soname_order };

    ghost total = { soname_order-total };

    ghost matches_partial_cmp = { λ a b. refl };

    ghost matches_eq = { λ a b. refl };

    fn cmp(&self, other: &Self) -> Ordering {
        compare_bytes(self.soname, other.soname)
    }
}

// Sorts items by their sonames. The sort is stable.
#[tactic(auto, using(crate::proofs::Gathered::sorted_by_soname))]
fn sort_by_soname<'a, T: Drop>(items: &mut Vec<BySoname<'a, T>>) -> Result<(), NoMemory>
    ensures { OnOk result (AreBySoname items.old.items items.new.items) }
{
    items.sort()?;
    Ok(())
}

/// A fold over the items that share a soname.
pub trait Gather<X> {
    ghost step: { Option Self → X → Option Self };

    /// The fold of the first item.
    fn first(item: X) -> Self
        ensures { Some result ≡ step None item };

    /// Adds one item to the fold.
    fn with(self, item: X) -> Self
        ensures { Some result ≡ step (Some self) item };
}

// Whether the last entry has this soname.
#[tactic(auto, using(crate::proofs::Gathered::last_is))]
fn is_last<'a, G>(found: &[BySoname<'a, G>], soname: &[u8]) -> bool
    ensures { result ≡ is_last soname.now found.now }
{
    match found.last() {
        Some(last) => last.soname() == soname,
        None => false,
    }
}

// Removes and returns the fold of this soname. It is the last entry, if there is one.
fn take_last<'a, G: Drop>(found: &mut Vec<BySoname<'a, G>>, soname: &[u8]) -> Option<G>
    ensures { MatchOption result ((found.new.items ≡ found.old.items) × (is_last soname.now found.old.items ≡ false))
        (λ last. found.old.items ≡ found.new.items ++ (soname.now, last) ∷ []) }
{
    if !is_last(found.as_slice(), soname) {
        return None;
    }
    let last = found.pop()?;
    Some(last.into_item())
}

// Adds an item. Its soname must not be less than any soname so far.
fn add<'a, X: Drop, G: Gather<X> + Drop>(
    found: &mut Vec<BySoname<'a, G>>,
    soname: &'a [u8],
    item: X,
) -> Result<(), NoMemory>
    requires ordered { AreOrdered found.old.items }
    requires following { AllByRecursion (λ key. is_lt (slice_cmp nat_cmp soname.now key) ≡ false) (keys_of found.old.items) }
    ensures { OnOk result (IsGathered G.step found.old.items soname.now item found.new.items) }
{
    let more = match take_last(found, soname) {
        Some(last) => last.with(item),
        None => G::first(item),
    };
    found.push(BySoname::new(soname, more))?;
    Ok(())
}

// The folds of sorted items.
#[tactic(auto, using(crate::proofs::Gathered::done))]
fn gather_sorted<'a, X: Drop, G: Gather<X> + Drop>(
    alloc: Global,
    items: Vec<BySoname<'a, X>>,
) -> Result<Vec<BySoname<'a, G>>, NoMemory>
    requires { AreAscending (keys_of items.items) }
    ensures { IfOk result (λ found. AreGathered G.step items.entry.items found.items) }
{
    let mut found = Vec::with_capacity(alloc, items.len())?;
    for item in items {
        let soname = item.soname();
        add(&mut found, soname, item.into_item())?;
    }
    Ok(found)
}

/// The fold over the items of each soname. Each soname occurs once, sorted by its bytes.
pub fn gather_by_soname<'a, X: Drop, G: Gather<X> + Drop>(
    alloc: Global,
    items: Vec<BySoname<'a, X>>,
) -> Result<Vec<BySoname<'a, G>>, NoMemory>
    ensures { IfOk result (λ found. AreGathered G.step items.entry.items found.items) }
{
    let mut sorted = items;
    sort_by_soname(&mut sorted)?;
    let found = gather_sorted(alloc, sorted)?;
    Ok(found)
}
