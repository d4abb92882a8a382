//! Pools of at most a mebibyte, and their strings.
ghost use Rattle.std.specs.Prelude.{IfOk};

use lib_types::NoMemory;
use std::alloc::Global;
use std::marker::Model;
use string_pool::{Pool, Sealed};

const MOST: usize = 1 << 20;

/// A pool, a limit of its bytes, and a number up to which it has strings.
#[derive(Drop)]
pub(crate) struct Filling<'a> {
    pool: Pool<'a>,
    size: usize,
    count: u32,
}

impl<'a> Model for Filling<'a> {
    ghost use Rattle.std.specs.Prelude.{◌≤◌, ◌^◌, ℕ, List, length};
    ghost use Rattle.string_pool.specs.InOrder.{table_of};

    ghost Value = { List (List ℕ) };

    ghost view = { λ f. f.pool };

    ghost invariant = { λ f. (length (table_of f.pool) ≤ f.size) × ((f.size ≤ 2 ^ 20) × (f.count ≤ length f.pool)) };
}

impl<'a> Filling<'a> {
    pub(crate) fn new(alloc: Global) -> Filling<'a> {
        Filling {
            pool: Pool::new(alloc),
            size: 0,
            count: 0,
        }
    }

    /// Adds a string, and returns its number. A string that is too long is refused.
    #[tactic(auto, using(crate::proofs::Fits::few, crate::proofs::Fits::fits, crate::proofs::Fits::grows, crate::proofs::Fits::within))]
    pub(crate) fn add(&mut self, text: &'a [u8]) -> Result<u32, NoMemory> {
        if text.len() >= MOST - self.size {
            return Err(NoMemory);
        }
        let number = self.pool.add(text)?;
        self.size += text.len() + 1;
        self.count = self.count.max(number.saturating_add(1));
        Ok(number)
    }

    /// Lays out the strings from an offset on.
    pub(crate) fn seal(self, alloc: Global, base: u16) -> Result<Filled<'a>, NoMemory> {
        let sealed = self.pool.seal(alloc, u32::from(base))?;
        Ok(Filled {
            sealed,
            count: self.count,
        })
    }
}

/// A table, and a number up to which it has strings.
#[derive(Drop)]
pub(crate) struct Filled<'a> {
    sealed: Sealed<'a>,
    count: u32,
}

impl<'a> Model for Filled<'a> {
    ghost use Rattle.std.specs.Prelude.{◌≤◌, length};
    ghost use Rattle.string_pool.specs.InOrder.{Strings};

    ghost Value = { Strings };

    ghost view = { λ f. f.sealed };

    ghost invariant = { λ f. f.count ≤ length f.sealed.texts };
}

impl<'a> Filled<'a> {
    /// The offset of the string with this number.
    pub(crate) fn offset(&self, number: u32) -> Option<u32> {
        if number < self.count {
            Some(self.sealed.offset(number))
        } else {
            None
        }
    }

    /// The bytes of the strings.
    pub(crate) fn bytes(&self) -> &[u8] {
        self.sealed.bytes()
    }
}
