//! Lists that store an item once, even if it occurs at many indices.
ghost use Rattle.std.specs.Prelude.{◌≡◌, length};
ghost use Rattle.string_pool.specs.Shared.{taken, AreRows, HaveSame};

use lib_types::Seq;
use std::marker::Model;

/// A list that stores each item once. For each index it has the row of the item at that index. Contracts see the list of the items
/// at all indices.
#[derive(Drop)]
pub struct Shared<T> {
    items: Vec<T>,
    rows: Seq<usize>,
}

impl<T> Model for Shared<T> {
    ghost use Rattle.std.specs.Prelude.{List, length};
    ghost use Rattle.string_pool.specs.Shared.{taken, AreRows};

    ghost Value = { List T };

    ghost view = { λ s. taken s.items.items s.rows };

    ghost invariant = { λ s. AreRows (length s.items.items) s.rows };
}

impl<T> Shared<T> {
    /// The list of the items in these rows. Allocates no memory.
    pub fn new(items: Vec<T>, rows: Seq<usize>) -> Shared<T>
        requires { AreRows (length items.items) rows }
        ensures { result ≡ taken items.items rows }
    {
        Shared { items, rows }
    }

    /// The stored items, in the order in which they are stored.
    #[tactic(auto, using(crate::proofs::EachOnce::each_alike))]
    pub fn each_once(&self) -> &[T]
        ensures { HaveSame result.now self.now }
    {
        self.items.as_slice()
    }

    /// Iterates over the items at all indices, in order.
    pub fn iter(&self) -> Items<'_, T>
        ensures { result ≡ self.now }
    {
        Items {
            items: self.items.as_slice(),
            rows: self.rows.as_slice(),
        }
    }
}

/// An iterator over the items in rows. Contracts see the list of the items that are left.
#[derive(Drop)]
pub struct Items<'a, T> {
    items: &'a [T],
    rows: &'a [usize],
}

impl<'a, T> Model for Items<'a, T> {
    ghost use Rattle.std.specs.Prelude.{List, length};
    ghost use Rattle.string_pool.specs.Shared.{taken, AreWithin};

    ghost Value = { List T };

    ghost view = { λ s. taken s.items.now s.rows.now };

    ghost invariant = { λ s. AreWithin (length s.items.now) s.rows.now };
}

impl<'a, T> Iterator for Items<'a, T> {
    ghost use Rattle.std.specs.Iterator.{YieldsFirstBy, item_count};

    type Item = &'a T;

    ghost next_gives = { YieldsFirstBy (λ x. x.now) (λ s. s) };

    ghost remaining = { item_count (λ s. s) };

    fn next(&mut self) -> Option<&'a T> {
        let (row, rest) = self.rows.split_first()?;
        self.rows = rest;
        Some(&self.items[*row])
    }
}
