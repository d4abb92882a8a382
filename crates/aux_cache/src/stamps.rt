//! Stamps, sorted by the identities of their files.
ghost use Rattle.std.specs.Prelude.{◌≡◌, ◌==◌, ◌<◌, ◌≤◌, [], length, slice_get, slice_set, OnOk, OnErr, IfOk, IfErr};
ghost use Rattle.std.specs.List.{insert};
ghost use Rattle.std.specs.Option.{option_copied};
ghost use Rattle.aux_cache.specs.Ids.{id_cmp};
ghost use Rattle.aux_cache.specs.Stamps.{IsSortedById, put, stamp_of};
ghost use Rattle.aux_cache.specs.Index.{IsIndexOf, IsGapFor};

use crate::order::compare;
use image_tree::NODES_MAX;
use lib_types::{Analysis, NoMemory};
use std::alloc::Global;
use std::cmp::Ordering;
use std::marker::Model;
use tree_face::Id;

/// The maximum number of stamps in a file: one for each node that a tree may have.
pub const STAMPS_MAX: usize = NODES_MAX;

/// The cached ELF information of a file, with the file's identity.
#[derive(Drop)]
pub struct Stamp {
    pub id: Id,
    pub analysis: Analysis,
}

/// Stamps with distinct identities. Contracts see the list of the stamps, sorted by identity.
#[derive(Drop)]
pub struct Stamps {
    stamps: Vec<Stamp>,
}

impl Model for Stamps {
    ghost use Rattle.std.specs.Prelude.{List};
    ghost use Rattle.aux_cache.specs.Stamps.{IsSortedById};
    ghost use Rattle.aux_cache.specs.declared.stamps.Stamp.{Stamp};

    ghost Value = { List Stamp };

    ghost view = { λ s. s.stamps.items };

    ghost invariant = { λ s. IsSortedById s.stamps.items };
}

impl Stamps {
    /// No stamps. Keeps the allocator and allocates no memory.
    pub fn new(alloc: Global) -> Stamps
        ensures { result ≡ [] }
    {
        Stamps {
            stamps: Vec::new(alloc),
        }
    }

    /// These stamps, which are already sorted by identity.
    pub(crate) fn from_sorted(stamps: Vec<Stamp>) -> Stamps
        requires { IsSortedById stamps.items }
        ensures { result ≡ stamps.items }
    {
        Stamps { stamps }
    }

    /// The number of stamps.
    pub fn len(&self) -> usize
        ensures { result ≡ length self.now }
    {
        self.stamps.len()
    }

    /// Whether the list is empty.
    pub fn is_empty(&self) -> bool
        ensures { result ≡ (length self.now == 0) }
    {
        self.stamps.is_empty()
    }

    /// The stamp at this index, starting from 0.
    pub fn get(&self, i: usize) -> Option<&Stamp>
        ensures { option_copied result ≡ slice_get self.now i }
    {
        self.stamps.as_slice().get(i)
    }

    /// The stamps, sorted by identity.
    pub fn as_slice(&self) -> &[Stamp]
        ensures stamps { result.now ≡ self.now }
        ensures sorted { IsSortedById self.now }
    {
        self.stamps.as_slice()
    }

    /// The stamp with this identity, by binary search.
    #[tactic(auto, using(crate::proofs::Sorted::found_stamp, crate::proofs::Sorted::absent_stamp))]
    pub fn find(&self, id: &Id) -> Option<&Stamp>
        ensures { option_copied result ≡ stamp_of self.now id.now }
    {
        match search(&self.stamps, id) {
            Ok(index) => self.get(index),
            Err(_) => None,
        }
    }

    /// Inserts the stamp. A stamp with the same identity is replaced. If the identity is the greatest, no stamp is moved.
    #[tactic(auto, using(crate::proofs::Sorted::inserted, crate::proofs::Sorted::replaced, crate::proofs::Sorted::sorted_put))]
    pub fn insert(&mut self, stamp: Stamp) -> Result<(), NoMemory>
        ensures done { OnOk result (self.new ≡ put self.old stamp) }
        ensures refused { OnErr result (self.new ≡ self.old) }
    {
        match search(&self.stamps, &stamp.id) {
            Ok(index) => replace(&mut self.stamps, index, stamp),
            Err(index) => insert_at(&mut self.stamps, index, stamp)?,
        }
        Ok(())
    }
}

// The index of the stamp with this identity, or the index at which it would be inserted.
fn search(stamps: &Vec<Stamp>, id: &Id) -> Result<usize, usize>
    requires { IsSortedById stamps.now.items }
    ensures found { IfOk result (IsIndexOf stamps.now.items id.now) }
    ensures absent { IfErr result (IsGapFor stamps.now.items id.now) }
{
    stamps.binary_search_by(
        |stamp: &Stamp| -> Ordering
            ensures { result ≡ id_cmp stamp.now.id id.entry.now }
        { compare(&stamp.id, id) },
    )
}

// Overwrites the stamp at this index.
fn replace(stamps: &mut Vec<Stamp>, index: usize, stamp: Stamp)
    requires { index < length stamps.old.items }
    ensures { stamps.new.items ≡ slice_set stamps.old.items index stamp }
{
    stamps[index] = stamp;
}

// Inserts a stamp at this index.
fn insert_at(stamps: &mut Vec<Stamp>, index: usize, stamp: Stamp) -> Result<(), NoMemory>
    requires { index ≤ length stamps.old.items }
    ensures done { OnOk result (stamps.new.items ≡ insert stamps.old.items index stamp) }
    ensures refused { OnErr result (stamps.new.items ≡ stamps.old.items) }
{
    stamps.insert(index, stamp)?;
    Ok(())
}
