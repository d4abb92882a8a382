//! The borrowed key of a lookup by text.
ghost use Rattle.std.proofs.Common.{ap, sym};
ghost use Rattle.std.specs.Cmp.{on_equiv, on_per, partial_equiv_from_equiv};
ghost use Rattle.std.specs.Cmp.Lexicographic.{nat_list_eq_equiv, pointwise, same_text};
ghost use Rattle.std.specs.Prelude.{nat_eq, ◌∷◌, []};

use crate::Text;
use crate::same::are_same;
use indexmap::Equivalent;
use std::hash::{Hash, Hasher};

/// Borrowed bytes with which a text is looked up in a hash map, without copying them.
#[derive(Clone, Copy)]
pub struct TextRef<'a> {
    pub bytes: &'a [u8],
}

impl<'a> PartialEq for TextRef<'a> {
    ghost eq = { λ a b. pointwise nat_eq a.bytes.now b.bytes.now };

    ghost laws = { on_per (λ t. t.bytes.now) (partial_equiv_from_equiv nat_list_eq_equiv) };

    fn eq(&self, other: &Self) -> bool {
        are_same(self.bytes, other.bytes)
    }
}

impl<'a> Eq for TextRef<'a> {
    ghost laws = { on_equiv (λ t. t.bytes.now) nat_list_eq_equiv };
}

// The hash must equal the hash of the `Text` with these bytes.
impl<'a> Hash for TextRef<'a> {
    ghost hash_input = { λ t. t.bytes.now ∷ [] };

    ghost respects_eq = { λ a b same. ap (λ bytes. bytes ∷ []) (same_text a.bytes.now b.bytes.now (sym same)) };

    fn hash<H: Hasher>(&self, state: &mut H) {
        state.write(self.bytes);
    }
}

impl<'a> Equivalent<Text> for TextRef<'a> {
    ghost equivalent = { λ t text. pointwise nat_eq t.bytes.now text };

    ghost respects_hash = { λ t text same. ap (λ bytes. bytes ∷ []) (same_text t.bytes.now text (sym same)) };

    ghost respects_eq = { λ t x y same. ap (λ bytes. pointwise nat_eq bytes y) (same_text t.bytes.now x (sym same)) };

    fn equivalent(&self, text: &Text) -> bool {
        are_same(self.bytes, text.as_bytes())
    }
}
