//! Comparison of byte slices: equality, the length of the common prefix, and the order.
ghost use Rattle.byteorder.specs.Endian.{little_from};
ghost use Rattle.lib_types.specs.Words.{AreZeroBytes};
ghost use Rattle.std.specs.Cmp.Lexicographic.{pointwise, slice_cmp};
ghost use Rattle.std.specs.Int.{abs_diff};
ghost use Rattle.std.specs.Ordering.{nat_cmp};
ghost use Rattle.std.specs.Prelude.{◌≡◌, ◌≢◌, ◌≤◌, ◌<◌, ◌+◌, nat_eq, length, slice_index_or, take};

use byteorder::{ByteOrder, LittleEndian};
use std::cmp::Ordering;

// The eight bytes at an offset as one number.
fn word_at(bytes: &[u8], at: usize) -> u64
    requires { at + 8 ≤ length bytes.now }
    ensures { result ≡ little_from at 8 bytes.now }
{
    LittleEndian::read_u64(&bytes[at..])
}

// Whether two texts of equal length have the same bytes, compared eight at a time. If the length isn't a multiple of eight, the last
// eight bytes overlap the eight before them.
#[tactic(auto, using(crate::proofs::SameBytes::word_equal, crate::proofs::SameBytes::other_word, crate::proofs::SameBytes::all_equal))]
fn are_same_long(a: &[u8], b: &[u8]) -> bool
    requires one_length { length a.now ≡ length b.now }
    requires long { 8 ≤ length a.now }
    ensures { result ≡ pointwise nat_eq a.now b.now }
{
    let last = a.len() - 8;
    let mut i = 0;
    while i < a.len() {
        let at = i.min(last);
        if word_at(a, at) != word_at(b, at) {
            return false;
        }
        i = at + 8;
    }
    true
}

/// Whether both have the same bytes. It compares eight bytes at a time, since compared paths and names often have long common parts.
pub fn are_same(a: &[u8], b: &[u8]) -> bool
    ensures { result ≡ pointwise nat_eq a.now b.now }
{
    if a.len() != b.len() {
        return false;
    }
    if a.len() < 8 {
        a == b
    } else {
        are_same_long(a, b)
    }
}

// The number of equal low bytes of two words, up to the first byte that differs.
#[tactic(auto, using(crate::proofs::EqualFront::zero_bytes))]
fn equal_bytes(x: u64, y: u64) -> usize
    ensures within { result ≤ 8 }
    ensures zeros { AreZeroBytes result (abs_diff x y) }
{
    x.abs_diff(y).trailing_zeros() as usize / 8
}

// An offset up to which both have the same bytes. If the first byte that differs is within a whole word of both, it is that byte's offset.
#[tactic(auto, using(crate::proofs::EqualFront::words_equal, crate::proofs::EqualFront::words_differ))]
fn equal_words(a: &[u8], b: &[u8]) -> usize
    ensures within { (result ≤ length a.now) × (result ≤ length b.now) }
    ensures same { take result a.now ≡ take result b.now }
{
    let shorter = a.len().min(b.len());
    if shorter < 8 {
        return 0;
    }
    let last = shorter - 8;
    let mut i = 0;
    while i <= last {
        let (x, y) = (word_at(a, i), word_at(b, i));
        if x != y {
            return i + equal_bytes(x, y);
        }
        i += 8;
    }
    i
}

/// The length of the common prefix. It compares eight bytes at a time, since sorted paths and names often have long common prefixes.
#[tactic(auto, using(crate::proofs::EqualFront::byte_equal))]
pub fn equal_len(a: &[u8], b: &[u8]) -> usize
    ensures within { (result ≤ length a.now) × (result ≤ length b.now) }
    ensures same { take result a.now ≡ take result b.now }
    ensures other { result < length a.now → result < length b.now → slice_index_or a.now result 0 ≢ slice_index_or b.now result 0 }
{
    let shorter = a.len().min(b.len());
    let mut i = equal_words(a, b);
    while i < shorter && a[i] == b[i] {
        i += 1;
    }
    i
}

/// The order of two texts by their bytes. It compares the common prefix eight bytes at a time.
#[tactic(auto, using(crate::proofs::ByteOrder::byte_decides_order))]
pub fn compare_bytes(a: &[u8], b: &[u8]) -> Ordering
    ensures { result ≡ slice_cmp nat_cmp a.now b.now }
{
    let same = equal_len(a, b);
    if same < a.len() && same < b.len() {
        return a[same].cmp(&b[same]);
    }
    a.len().cmp(&b.len())
}
