//! A string table whose strings share their ends.
ghost use Rattle.std.specs.Prelude.{◌≡◌, ◌+◌, ◌^◌, ◌<◌, ◌-◌, [], length, slice_get, IfOk, IfSome, OnOk, OnErr, bytes_eq};
ghost use Rattle.indexmap.specs.IndexSet.{insert_key};
ghost use Rattle.string_pool.specs.InOrder.{table_of};
ghost use Rattle.string_pool.specs.Texts.{number_of, IsTextAt};
ghost use Rattle.string_pool.specs.SharedEnds.{shared_place, shared_table};

use crate::Texts;
use crate::hosts::hosts;
use crate::layout::{lay_out, offsets};
use lib_types::NoMemory;
use std::alloc::Global;
use std::marker::Model;

/// Different strings, before it is known where they will be. Contracts see the list of them, in order of first use.
#[derive(Drop)]
pub struct Pool<'a> {
    texts: Texts<'a>,
    list: Vec<&'a [u8]>,
}

impl<'a> Model for Pool<'a> {
    ghost use Rattle.std.specs.Prelude.{◌≡◌, ℕ, List, map};
    ghost use Rattle.string_pool.specs.Hosts.{AreDifferent};

    ghost Value = { List (List ℕ) };

    ghost view = { λ p. p.texts };

    ghost invariant = { λ p. (map (λ text. text.now) p.list.items ≡ p.texts) × AreDifferent p.texts };
}

impl<'a> Pool<'a> {
    /// An empty pool.
    #[tactic(auto, using(crate::proofs::Pooled::none_differ))]
    pub fn new(alloc: Global) -> Pool<'a>
        ensures { result ≡ [] }
    {
        Pool {
            texts: Texts::new(alloc),
            list: Vec::new(alloc),
        }
    }

    /// An empty pool with room for `count` strings.
    #[tactic(auto, using(crate::proofs::Pooled::none_differ))]
    pub fn with_capacity(alloc: Global, count: usize) -> Result<Pool<'a>, NoMemory>
        ensures { IfOk result (λ pool. pool ≡ []) }
    {
        Ok(Pool {
            texts: Texts::with_capacity(alloc, count)?,
            list: Vec::with_capacity(alloc, count)?,
        })
    }

    /// Returns the number of a string. Adds the string at the end if it is new.
    #[tactic(auto, using(crate::proofs::Pooled::list_same, crate::proofs::Pooled::list_added, crate::proofs::Pooled::differ_more))]
    pub fn add(&mut self, text: &'a [u8]) -> Result<u32, NoMemory>
        requires { length self.old < 2 ^ 32 }
        ensures texts { OnOk result (self.new ≡ insert_key bytes_eq self.old text.now) }
        ensures number { IfOk result (λ number. number ≡ number_of self.new text.now) }
        ensures refused { OnErr result (self.new ≡ self.old) }
    {
        self.list.push(text)?;
        let added = self.texts.add(text);

        // The string was there already, or was refused.
        self.list.truncate(self.texts.len());
        added
    }

    /// Lays out the strings from an offset of the file on.
    pub fn seal(self, alloc: Global, base: u32) -> Result<Sealed<'a>, NoMemory>
        requires { base + length (table_of self) < 2 ^ 32 }
        ensures { IfOk result (λ sealed. sealed ≡ record { base = base; texts = self.entry }) }
    {
        let texts = self.list.as_slice();
        let hosts = hosts(alloc, texts)?;
        let layout = lay_out(alloc, texts, &hosts)?;
        let offsets = offsets(alloc, base, texts, &hosts, &layout.ends)?;
        Ok(Sealed {
            base,
            texts: self.texts,
            offsets,
            bytes: layout.bytes,
        })
    }
}

/// The strings of a file and their offsets. A string that is the end of another one has no bytes of its own. Contracts see the
/// offset of the table in the file, and the list of the strings.
#[derive(Drop)]
pub struct Sealed<'a> {
    base: u32,
    texts: Texts<'a>,
    offsets: Vec<u32>,
    bytes: Vec<u8>,
}

impl<'a> Model for Sealed<'a> {
    ghost use Rattle.std.specs.Prelude.{◌≡◌, map};
    ghost use Rattle.string_pool.specs.InOrder.{Strings};
    ghost use Rattle.string_pool.specs.SharedEnds.{shared_place, shared_table};

    ghost Value = { Strings };

    ghost view = { λ s. record { base = s.base; texts = s.texts } };

    ghost invariant = { λ s. (s.offsets.items ≡ map (shared_place (record { base = s.base; texts = s.texts })) s.texts) × (s.bytes.items ≡ shared_table s.texts) };
}

impl<'a> Sealed<'a> {
    /// The offset of the string with this number.
    #[tactic(auto, using(crate::proofs::Pooled::offset_index, crate::proofs::Pooled::offset_is, crate::proofs::Pooled::offset_located))]
    pub fn offset(&self, number: u32) -> u32
        requires { number < length self.now.texts }
        ensures place { IfSome (slice_get self.now.texts number) (λ text. result ≡ shared_place self.now text) }
        ensures located { IfSome (slice_get self.now.texts number) (λ text. IsTextAt (shared_table self.now.texts) (result - self.now.base) text) }
    {
        self.offsets[number as usize]
    }

    /// The bytes of the strings.
    pub fn bytes(&self) -> &[u8]
        ensures { result.now ≡ shared_table self.now.texts }
    {
        &self.bytes
    }
}
