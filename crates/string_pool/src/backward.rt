//! Texts in the order of their bytes, read from the end.
ghost use Rattle.std.proofs.Common.{refl};
ghost use Rattle.std.specs.Cmp.{partial_equiv_from_equiv, eq_by_cmp_equiv, partial_order_from_total};
ghost use Rattle.std.specs.Ordering.{as_partial_cmp, eq_by_cmp};
ghost use Rattle.std.specs.Prelude.{◌≡◌, ◌+◌, ◌^◌, ◌<◌, ◌≤◌, length, map, IfOk};
ghost use Rattle.byteorder.specs.Endian.{little_from};
ghost use Rattle.string_pool.specs.Backward.{AreBackward, AreNumbered, back_cmp, falling, falling-total};

use byteorder::{ByteOrder, LittleEndian};
use lib_types::NoMemory;
use std::alloc::Global;
use std::cmp::Ordering;

/// A text, and the number of a text in the list of all texts.
#[derive(Drop)]
pub struct Numbered<'a> {
    pub text: &'a [u8],
    pub number: u32,
}

impl<'a> PartialEq for Numbered<'a> {
    ghost eq = { eq_by_cmp falling };

    ghost laws = { partial_equiv_from_equiv (eq_by_cmp_equiv falling-total) };

    fn eq(&self, other: &Self) -> bool {
        self.cmp(other).is_eq()
    }
}

impl<'a> Eq for Numbered<'a> {
    ghost laws = { eq_by_cmp_equiv falling-total };
}

impl<'a> PartialOrd for Numbered<'a> {
    ghost partial_cmp = { as_partial_cmp falling };

    ghost laws = { partial_order_from_total falling-total };

    fn partial_cmp(&self, other: &Self) -> Option<Ordering> {
        Some(self.cmp(other))
    }
}

impl<'a> Ord for Numbered<'a> {
    ghost cmp = { falling };

    ghost total = { falling-total };

    ghost matches_partial_cmp = { λ a b. refl };

    ghost matches_eq = { λ a b. refl };

    fn cmp(&self, other: &Self) -> Ordering {
        compare_back(other.text, self.text)
    }
}

/// Compares the bytes of texts, read from the end. It compares eight bytes at a time, since names often have long common ends.
#[tactic(auto, using(crate::proofs::Words::equal_words, crate::proofs::Words::other_words))]
pub fn compare_back(a: &[u8], b: &[u8]) -> Ordering
    ensures { result ≡ back_cmp a.now b.now }
{
    let mut left = a.len();
    let mut right = b.len();
    while left >= 8 && right >= 8 {
        let (x, y) = (word_at(a, left - 8), word_at(b, right - 8));
        if x != y {
            return x.cmp(&y);
        }
        left -= 8;
        right -= 8;
    }
    compare_bytes_back(&a[..left], &b[..right])
}

// The eight bytes at an offset as one number. The last of them counts most.
fn word_at(bytes: &[u8], at: usize) -> u64
    requires { at + 8 ≤ length bytes.now }
    ensures { result ≡ little_from at 8 bytes.now }
{
    LittleEndian::read_u64(&bytes[at..])
}

// Compares the bytes of texts, read from the end, one at a time.
#[tactic(auto, using(crate::proofs::Tops::equal_bytes, crate::proofs::Tops::other_bytes, crate::proofs::Tops::used_up))]
fn compare_bytes_back(a: &[u8], b: &[u8]) -> Ordering
    ensures { result ≡ back_cmp a.now b.now }
{
    let mut left = a.len();
    let mut right = b.len();
    while left > 0 && right > 0 && a[left - 1] == b[right - 1] {
        left -= 1;
        right -= 1;
    }
    if left > 0 && right > 0 {
        a[left - 1].cmp(&b[right - 1])
    } else {
        left.cmp(&right)
    }
}

/// The texts with their numbers, sorted so that a text comes after all texts that end in it.
#[tactic(auto, using(crate::proofs::Sorted::ranked_backward))]
pub fn backward<'a>(alloc: Global, texts: &[&'a [u8]]) -> Result<Vec<Numbered<'a>>, NoMemory>
    requires { length texts.now < 2 ^ 32 }
    ensures { IfOk result (λ sorted. AreBackward (map (λ text. text.now) texts.now) sorted.items) }
{
    let mut sorted = with_numbers(alloc, texts)?;

    // Numbers are compared fast, and the sort that compares texts is fast if the texts are nearly sorted.
    sorted.sort_by_cached_key(|item| rank(item.text))?;
    sorted.sort()?;
    Ok(sorted)
}

// A number that is nearly always less for the text that comes first, made of its last fourteen bytes and its length. Another number
// would make sorting slower, not wrong.
fn rank(text: &[u8]) -> u128 {
    let count = text.len().min(14);
    let mut bytes = [0u8; 16];
    bytes[16 - count..].copy_from_slice(&text[text.len() - count..]);
    LittleEndian::write_u16(&mut bytes, text.len().min(65535) as u16);
    u128::MAX - LittleEndian::read_u128(&bytes)
}

// The texts with their numbers, in the order of the numbers.
#[tactic(auto, using(crate::proofs::Sorted::numbered_more, crate::proofs::Sorted::none_numbered, std::proofs::lemmas::List::map_more))]
fn with_numbers<'a>(alloc: Global, texts: &[&'a [u8]]) -> Result<Vec<Numbered<'a>>, NoMemory>
    requires { length texts.now < 2 ^ 32 }
    ensures { IfOk result (λ all. AreNumbered (map (λ text. text.now) texts.now) all.items) }
{
    let mut all = Vec::with_capacity(alloc, texts.len())?;
    for text in texts {
        let number = all.len() as u32;
        all.push(Numbered {
            text: *text,
            number,
        })?;
    }
    Ok(all)
}
