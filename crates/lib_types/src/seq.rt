//! A list type for items of any type.
ghost use Rattle.std.specs.Prelude.{◌≡◌, ◌==◌, ℕ, List, [], ◌∷◌, ◌++◌, length, slice_get, OnOk, OnErr};
ghost use Rattle.std.specs.Option.{option_copied};

use crate::{NoMemory, Text};
use std::alloc::Global;
use std::marker::Model;

/// A list that grows at its end. In contracts it is the list of its items.
#[derive(Drop)]
pub struct Seq<T> {
    items: Vec<T>,
}

/// A list of texts.
pub type Texts = Seq<Text>;

impl<T> Model for Seq<T> {
    ghost Value = { List T };

    ghost view = { λ s. s.items.items };
}

impl<T> Seq<T> {
    /// An empty list. It keeps the allocator and allocates nothing.
    pub fn new(alloc: Global) -> Seq<T>
        ensures { result ≡ [] }
    {
        Seq {
            items: Vec::new(alloc),
        }
    }

    /// The list of these items. It allocates nothing.
    pub fn from_vec(items: Vec<T>) -> Seq<T>
        ensures { result ≡ items.items }
    {
        Seq { items }
    }

    /// The items. It allocates nothing.
    pub fn into_vec(self) -> Vec<T>
        ensures { result.items ≡ self }
    {
        self.items
    }

    /// The items, borrowed.
    pub fn as_slice(&self) -> &[T]
        ensures { result.now ≡ self.now }
    {
        self.items.as_slice()
    }

    /// The number of items.
    pub fn len(&self) -> usize
        ensures { result ≡ length self.now }
    {
        self.items.len()
    }

    /// Whether the list is empty.
    pub fn is_empty(&self) -> bool
        ensures { result ≡ (length self.now == 0) }
    {
        self.items.is_empty()
    }

    /// The item at this index, counted from 0.
    pub fn get(&self, i: usize) -> Option<&T>
        ensures { option_copied result ≡ slice_get self.now i }
    {
        self.items.as_slice().get(i)
    }
}

impl<T: Drop> Seq<T> {
    /// Puts an item at the end.
    pub fn push(&mut self, item: T) -> Result<(), NoMemory>
        ensures done { OnOk result (self.new ≡ self.old ++ item ∷ []) }
        ensures refused { OnErr result (self.new ≡ self.old) }
    {
        self.items.push(item)?;
        Ok(())
    }
}
