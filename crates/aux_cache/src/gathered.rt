//! Stamps that are inserted in any order.
ghost use Rattle.std.proofs.Common.{refl};
ghost use Rattle.std.specs.Cmp.{eq_by_cmp_equiv, partial_equiv_from_equiv, partial_order_from_total};
ghost use Rattle.std.specs.Cmp.Lexicographic.{on_texts};
ghost use Rattle.std.specs.Ordering.{as_partial_cmp, eq_by_cmp};
ghost use Rattle.std.specs.Option.{option_copied};
ghost use Rattle.std.specs.BTreeMap.{is_at};
ghost use Rattle.std.specs.Map.{lookup};
ghost use Rattle.std.specs.Prelude.{◌≡◌, [], IfOk, IfSome, None, OnErr, OnOk, true};
ghost use Rattle.aux_cache.specs.Ids.{id_cmp, numbers_of};
ghost use Rattle.aux_cache.specs.Stamps.{AreRecordable, IsRecordable, put, stamp_of};

use crate::order::compare;
use crate::{Stamp, Stamps};
use lib_types::NoMemory;
use std::alloc::Global;
use std::cmp::Ordering;
use std::collections::BTreeMap;
use std::marker::Model;
use tree_face::Id;

// An identity as a map key.
#[derive(Drop)]
struct Key {
    id: Id,
}

impl Model for Key {
    ghost use Rattle.image_tree.specs.declared.node.Id.{Id};

    ghost Value = { Id };

    ghost view = { λ k. k.id };
}

impl PartialEq for Key {
    ghost eq = { eq_by_cmp id_cmp };

    ghost laws = { partial_equiv_from_equiv (eq_by_cmp_equiv (on_texts numbers_of)) };

    fn eq(&self, other: &Self) -> bool {
        self.cmp(other).is_eq()
    }
}

impl Eq for Key {
    ghost laws = { eq_by_cmp_equiv (on_texts numbers_of) };
}

impl PartialOrd for Key {
    ghost partial_cmp = { as_partial_cmp id_cmp };

    ghost laws = { partial_order_from_total (on_texts numbers_of) };

    fn partial_cmp(&self, other: &Self) -> Option<Ordering> {
        Some(self.cmp(other))
    }
}

impl Ord for Key {
    ghost cmp = { id_cmp };

    ghost total = { on_texts numbers_of };

    ghost matches_partial_cmp = { λ a b. refl };

    ghost matches_eq = { λ a b. refl };

    fn cmp(&self, other: &Self) -> Ordering {
        compare(&self.id, &other.id)
    }
}

// Whether an identity is greater than all keys of the map. Then no search is needed. Files that were created one after another
// usually have ascending inodes.
fn is_after(stamps: &BTreeMap<Key, Stamp>, key: &Key) -> bool
    ensures { result ≡ true → lookup (is_at (id_cmp key.now)) stamps.now.entries ≡ None }
{
    match stamps.last_key_value() {
        Some((last, _)) => last.cmp(key).is_lt(),
        None => false,
    }
}

/// Stamps with distinct identities, inserted in any order. Each can be recorded. Contracts see the list of the stamps, sorted by
/// identity.
///
/// A look-up or an insertion takes a few comparisons, in whatever order the identities come.
#[derive(Drop)]
pub struct GatheredStamps {
    stamps: BTreeMap<Key, Stamp>,
}

impl Model for GatheredStamps {
    ghost use Rattle.std.specs.Prelude.{◌≡◌, List};
    ghost use Rattle.std.specs.Map.{values_of};
    ghost use Rattle.aux_cache.specs.Stamps.{AreRecordable, by_id};
    ghost use Rattle.aux_cache.specs.declared.stamps.Stamp.{Stamp};

    ghost Value = { List Stamp };

    ghost view = { λ s. values_of s.stamps.entries };

    ghost invariant = { λ s. (s.stamps.entries ≡ by_id (values_of s.stamps.entries)) × AreRecordable (values_of s.stamps.entries) };
}

impl GatheredStamps {
    /// An empty map. It keeps the allocator and allocates no memory.
    pub fn new(alloc: Global) -> GatheredStamps
        ensures { result ≡ [] }
    {
        GatheredStamps {
            stamps: BTreeMap::new(alloc),
        }
    }

    /// The stamp with this identity.
    pub fn find(&self, id: Id) -> Option<&Stamp>
        ensures stamp { option_copied result ≡ stamp_of self.now id }
        ensures recordable { IfSome result (λ stamp. IsRecordable stamp.now.analysis) }
    {
        let key = Key { id };
        if is_after(&self.stamps, &key) {
            return None;
        }
        self.stamps.get(&key)
    }

    /// Inserts the stamp. A stamp with the same identity is replaced.
    pub fn insert(&mut self, stamp: Stamp) -> Result<(), NoMemory>
        requires { IsRecordable stamp.analysis }
        ensures done { OnOk result (self.new ≡ put self.old stamp) }
        ensures refused { OnErr result (self.new ≡ self.old) }
    {
        self.stamps.insert(Key { id: stamp.id }, stamp)?;
        Ok(())
    }

    /// The stamps, sorted by identity.
    pub fn into_stamps(self, alloc: Global) -> Result<Stamps, NoMemory>
        ensures stamps { IfOk result (λ stamps. stamps ≡ self) }
        ensures recordable { IfOk result AreRecordable }
    {
        let mut stamps = Vec::with_capacity(alloc, self.stamps.len())?;
        for stamp in self.stamps.into_values() {
            stamps.push(stamp)?;
        }
        Ok(Stamps::from_sorted(stamps))
    }
}
