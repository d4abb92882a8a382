//! A set of texts.
ghost use Rattle.std.specs.Prelude.{◌≡◌, [], is_some, position, IfOk, IfSome, OnOk, OnErr};
ghost use Rattle.std.specs.List.{list_any};
ghost use Rattle.std.specs.Str.{bytes_eq};
ghost use Rattle.indexmap.specs.IndexSet.{insert_key};
ghost use Rattle.string_pool.specs.At.{IsAt};
ghost use Rattle.string_pool.specs.Distinct.{distinct};

use indexmap::IndexSet;
use lib_types::{NoMemory, Text, TextRef, Texts};
use std::alloc::Global;
use std::marker::Model;

/// A set of texts. Contracts see the list of its texts, in the order of insertion.
///
/// The time of a look-up does not depend on the number of texts.
#[derive(Drop)]
pub struct TextSet {
    texts: IndexSet<Text>,
}

impl Model for TextSet {
    ghost use Rattle.std.specs.Prelude.{ℕ, List};

    ghost Value = { List (List ℕ) };

    ghost view = { λ s. s.texts.keys };
}

impl TextSet {
    /// An empty set. It keeps the allocator, and allocates no memory.
    pub fn new(alloc: Global) -> TextSet
        ensures { result ≡ [] }
    {
        TextSet {
            texts: IndexSet::new(alloc),
        }
    }

    /// Whether the text is in the set.
    pub fn contains(&self, text: &[u8]) -> bool
        ensures { result ≡ list_any (bytes_eq text.now) self.now }
    {
        self.texts.contains(TextRef { bytes: text })
    }

    /// The index of the text in the order of insertion, if the text is in the set.
    pub fn index_of(&self, text: &[u8]) -> Option<usize>
        ensures index { result ≡ position (bytes_eq text.now) self.now }
        ensures there { is_some result ≡ list_any (bytes_eq text.now) self.now }
        ensures at { IfSome result (λ i. IsAt self.now i text.now) }
    {
        self.texts.get_index_of(TextRef { bytes: text })
    }

    /// Inserts the text, if it isn't in the set.
    pub fn insert(&mut self, text: Text) -> Result<(), NoMemory>
        ensures done { OnOk result (self.new ≡ insert_key bytes_eq self.old text) }
        ensures refused { OnErr result (self.new ≡ self.old) }
    {
        self.texts.insert(text)?;
        Ok(())
    }

    /// The texts as a list.
    pub fn into_texts(self, alloc: Global) -> Result<Texts, NoMemory>
        ensures { IfOk result (λ texts. texts ≡ self) }
    {
        let mut texts = Texts::new(alloc);
        for text in self.texts {
            texts.push(text)?;
        }
        Ok(texts)
    }
}

/// Removes repetitions from a list of texts. Of equal texts the first stays.
#[tactic(auto, using(crate::proofs::WithoutRepeats::distinct_folded))]
pub fn distinct(alloc: Global, texts: &Texts) -> Result<Texts, NoMemory>
    ensures { IfOk result (λ once. once ≡ distinct texts.now) }
{
    let mut met = TextSet::new(alloc);
    for text in texts.as_slice() {
        met.insert(Text::copy_of(alloc, text.as_bytes())?)?;
    }
    met.into_texts(alloc)
}
