//! Different texts, each with a number.
ghost use Rattle.std.proofs.Common.{ap, sym};
ghost use Rattle.std.specs.Cmp.{partial_equiv_from_equiv};
ghost use Rattle.std.specs.Cmp.Lexicographic.{nat_list_eq_equiv, pointwise, same_text};
ghost use Rattle.std.specs.Prelude.{◌≡◌, ◌∷◌, nat_eq, ◌^◌, ◌<◌, [], length, IfOk, OnOk, OnErr, bytes_eq};
ghost use Rattle.indexmap.specs.IndexSet.{insert_key};
ghost use Rattle.string_pool.specs.Texts.{number_of};

use indexmap::IndexSet;
use lib_types::NoMemory;
use std::alloc::Global;
use std::hash::{Hash, Hasher};
use std::marker::Model;

/// A text as the key of a set. Contracts see its bytes. It is hashed with one write; a slice would be hashed byte by byte.
#[derive(Drop)]
pub(crate) struct Whole<'a> {
    pub(crate) bytes: &'a [u8],
}

impl<'a> Model for Whole<'a> {
    ghost use Rattle.std.specs.Prelude.{ℕ, List};

    ghost Value = { List ℕ };

    ghost view = { λ w. w.bytes.now };
}

impl<'a> PartialEq for Whole<'a> {
    ghost eq = { pointwise nat_eq };

    ghost laws = { partial_equiv_from_equiv nat_list_eq_equiv };

    fn eq(&self, other: &Self) -> bool {
        self.bytes == other.bytes
    }
}

impl<'a> Eq for Whole<'a> {
    ghost laws = { nat_list_eq_equiv };
}

impl<'a> Hash for Whole<'a> {
    ghost hash_input = { λ w. w ∷ [] };

    ghost respects_eq = { λ a b same. ap (λ bytes. bytes ∷ []) (same_text a b (sym same)) };

    fn hash<H: Hasher>(&self, state: &mut H) {
        state.write(self.bytes);
    }
}

/// Different texts in the order of insertion. The number of a text is its index in this order.
/// Contracts see the list of the texts.
#[derive(Drop)]
pub struct Texts<'a> {
    texts: IndexSet<Whole<'a>>,
}

impl<'a> Model for Texts<'a> {
    ghost use Rattle.std.specs.Prelude.{ℕ, List};

    ghost Value = { List (List ℕ) };

    ghost view = { λ t. t.texts.keys };
}

impl<'a> Texts<'a> {
    /// An empty list.
    pub fn new(alloc: Global) -> Texts<'a>
        ensures { result ≡ [] }
    {
        Texts {
            texts: IndexSet::new(alloc),
        }
    }

    /// An empty list with room for `count` texts.
    pub fn with_capacity(alloc: Global, count: usize) -> Result<Texts<'a>, NoMemory>
        ensures { IfOk result (λ texts. texts ≡ []) }
    {
        let mut texts = Texts::new(alloc);
        texts.texts.reserve(count)?;
        Ok(texts)
    }

    /// Returns the number of a text. Adds the text at the end if it is new. Adding other texts later does not change the number.
    #[tactic(auto, using(crate::proofs::Numbers::number_added))]
    pub fn add(&mut self, text: &'a [u8]) -> Result<u32, NoMemory>
        requires { length self.old < 2 ^ 32 }
        ensures texts { OnOk result (self.new ≡ insert_key bytes_eq self.old text.now) }
        ensures number { IfOk result (λ number. number ≡ number_of self.new text.now) }
        ensures refused { OnErr result (self.new ≡ self.old) }
    {
        let (number, _) = self.texts.insert_full(Whole { bytes: text })?;
        Ok(number as u32)
    }

    /// The number of texts.
    pub fn len(&self) -> usize
        ensures { result ≡ length self.now }
    {
        self.texts.len()
    }

    // The texts.
    pub(crate) fn as_slice(&self) -> &[Whole<'a>]
        ensures { result.now ≡ self.now }
    {
        self.texts.as_slice()
    }
}

#[cfg(test)]
mod tests {
    use super::*;
    use std::test::Fail;

    // Each text has the number of its first use.
    #[test]
    fn numbers(rt: HostRuntime) -> Result<(), Fail> {
        let mut texts = Texts::with_capacity(rt.alloc(), 2)?;
        assert_eq!(rt; texts.add(b"libz.so.1")?, 0);
        assert_eq!(rt; texts.add(b"/usr/lib/libz.so.1")?, 1);
        assert_eq!(rt; texts.add(b"libz.so.1")?, 0);
        assert_eq!(rt; texts.add(b"")?, 2);
        assert_eq!(rt; texts.len(), 3);
        Ok(())
    }
}
