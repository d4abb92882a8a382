//! An owned byte string: a name, a path, a key or a link target.
ghost use Rattle.std.proofs.Common.{ap, refl, sym};
ghost use Rattle.std.specs.Cmp.{partial_equiv_from_equiv};
ghost use Rattle.std.specs.Cmp.Lexicographic.{nat_list_eq_equiv, nat_list_cmp_total, same_text, texts_po, texts_ties, pointwise, slice_cmp};
ghost use Rattle.std.specs.Ordering.{as_partial_cmp, nat_cmp};
ghost use Rattle.std.specs.Prelude.{nat_eq, ◌≡◌, ◌≤◌, ◌∷◌, [], ℕ, List, IfOk, length};
ghost use Rattle.lib_types.specs.declared.text.TheConstants.{SHORT_MAX};

use crate::NoMemory;
use crate::same::{are_same, compare_bytes};
use std::alloc::Global;
use std::cmp::Ordering;
use std::hash::{Hash, Hasher};
use std::marker::Model;
use std::rc::Rc;

// The maximum length of a text that is stored inline, without an allocation. With 30 bytes, a `Text` has 32 bytes. Most sonames and file
// names are not longer.
const SHORT_MAX: usize = 30;

// The storage of the bytes.
#[derive(Drop)]
enum Storage {
    // Inline: the first `len` of these bytes.
    Here { len: u8, bytes: [u8; SHORT_MAX] },
    // In a heap block.
    Differ { bytes: Vec<u8> },
    // In a heap block that is shared with other texts.
    Shared { bytes: Rc<Vec<u8>> },
}

/// A byte string. In contracts it is the list of its bytes. Texts are ordered by their bytes.
pub struct Text {
    storage: Storage,
}

// Written out instead of derived: a proof about code that drops a text then doesn't depend on the storage.
impl Drop for Text {
    fn drop(self) {
        let Text { storage } = self;
        drop(storage);
    }
}

impl Model for Text {
    ghost use Rattle.lib_types.specs.Text.{bytes_in, IsFilled};
    ghost use Rattle.std.specs.Prelude.{ℕ, List};

    ghost Value = { List ℕ };

    ghost view = { λ t. bytes_in t.storage };

    ghost invariant = { λ t. IsFilled t.storage };
}

// A text that is stored inline. `bytes` must have at most SHORT_MAX bytes.
fn here(bytes: &[u8]) -> Text
    requires { length bytes.now ≤ SHORT_MAX }
    ensures { result ≡ bytes.now }
{
    let mut room = [0; SHORT_MAX];
    room[..bytes.len()].copy_from_slice(bytes);
    Text {
        storage: Storage::Here {
            len: bytes.len() as u8,
            bytes: room,
        },
    }
}

impl Text {
    /// A copy of these bytes.
    pub fn copy_of(alloc: Global, bytes: &[u8]) -> Result<Text, NoMemory>
        ensures { IfOk result (λ text. text ≡ bytes.now) }
    {
        if bytes.len() <= SHORT_MAX {
            return Ok(here(bytes));
        }
        let bytes = Vec::from_slice(alloc, bytes)?;
        Ok(Text {
            storage: Storage::Differ { bytes },
        })
    }

    /// A text of these bytes. It allocates nothing.
    pub fn from_vec(bytes: Vec<u8>) -> Text
        ensures { result ≡ bytes.items }
    {
        if bytes.len() <= SHORT_MAX {
            return here(bytes.as_slice());
        }
        Text {
            storage: Storage::Differ { bytes },
        }
    }

    /// The bytes, borrowed.
    pub fn as_bytes(&self) -> &[u8]
        ensures { result.now ≡ self.now }
    {
        match &self.storage {
            Storage::Here { len, bytes } => &bytes[..*len as usize],
            Storage::Differ { bytes } => bytes.as_slice(),
            Storage::Shared { bytes } => bytes.as_ref().as_slice(),
        }
    }

    /// The same text, so that copies of it share its heap block. A text that is stored inline stays inline.
    pub fn into_shared(self, alloc: Global) -> Result<Text, NoMemory>
        ensures { IfOk result (λ text. text ≡ self) }
    {
        let Text { storage } = self;
        let storage = match storage {
            Storage::Differ { bytes } => Storage::Shared {
                bytes: Rc::new(alloc, bytes)?,
            },
            storage => storage,
        };
        Ok(Text { storage })
    }

    /// A copy. It allocates nothing if the text is shared or stored inline.
    pub fn copy(&self, alloc: Global) -> Result<Text, NoMemory>
        ensures { IfOk result (λ text. text ≡ self.now) }
    {
        if let Storage::Shared { bytes } = &self.storage {
            let bytes = bytes.clone()?;
            return Ok(Text {
                storage: Storage::Shared { bytes },
            });
        }
        Text::copy_of(alloc, self.as_bytes())
    }

    /// A copy of the text, if there is one.
    pub fn copy_if_some(alloc: Global, text: &Option<Text>) -> Result<Option<Text>, NoMemory>
        ensures { IfOk result (λ copy. copy ≡ text.now) }
    {
        match text {
            Some(text) => Ok(Some(text.copy(alloc)?)),
            None => Ok(None),
        }
    }
}

impl PartialEq for Text {
    ghost eq = { pointwise nat_eq };

    ghost laws = { partial_equiv_from_equiv nat_list_eq_equiv };

    fn eq(&self, other: &Self) -> bool {
        are_same(self.as_bytes(), other.as_bytes())
    }
}

impl Eq for Text {
    ghost laws = { nat_list_eq_equiv };
}

impl PartialOrd for Text {
    ghost partial_cmp = { as_partial_cmp (slice_cmp nat_cmp) };

    ghost laws = { texts_po };

    fn partial_cmp(&self, other: &Self) -> Option<Ordering> {
        Some(self.cmp(other))
    }
}

impl Ord for Text {
    ghost cmp = { slice_cmp nat_cmp };

    ghost total = { nat_list_cmp_total };

    ghost matches_partial_cmp = { λ a b. refl };

    ghost matches_eq = { texts_ties };

    fn cmp(&self, other: &Self) -> Ordering {
        compare_bytes(self.as_bytes(), other.as_bytes())
    }
}

// A text is hashed with one write. A slice would be hashed byte by byte.
impl Hash for Text {
    ghost hash_input = { λ s. s ∷ [] };

    ghost respects_eq = { λ a b same. ap (λ bytes. bytes ∷ []) (same_text a b (sym same)) };

    fn hash<H: Hasher>(&self, state: &mut H) {
        state.write(self.as_bytes());
    }
}
