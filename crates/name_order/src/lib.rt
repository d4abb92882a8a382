//! The order in which the loader sorts library names, and which names are library names.
#![tactic(auto)]

ghost use Rattle.std.specs.Prelude.{◌≡◌, ◌+◌, ◌≤◌, ◌↔◌, ◌<◌, IfSome, IsTrue, codes, drop, length, nat_eq, take};
ghost use Rattle.std.specs.Char.{is_ascii_digit};
ghost use Rattle.std.specs.List.{ends_with, prefix_len, starts_with};
ghost use Rattle.std.specs.Cmp.{IsTotalOrder};
ghost use Rattle.name_order.specs.Order.{name_order, token_order};
ghost use Rattle.name_order.specs.Digits.{AreEqualDigits, BeginsByNumber, HaveNoDigit};
ghost use Rattle.name_order.specs.Numbers.{GoOnWithNumbers};
ghost use Rattle.name_order.specs.LibraryName.{contains, has_library_prefix, has_temporary_suffix, is_library_name};

mod front;
mod part;

use front::{ends_in_number, passed_len};
use lib_types::equal_len;
use part::{compare_parts, digits_len, next_part};
use std::cmp::Ordering;

// The order of two names whose first bytes differ, if neither byte is a digit. The bytes after these don't matter.
#[tactic(auto, using(crate::proofs::Runs::first_decides))]
fn compare_first(a: &[u8], b: &[u8]) -> Option<Ordering>
    ensures order { IfSome result (λ order. order ≡ token_order a.now b.now) }
    ensures digits { IfSome result (λ order. HaveNoDigit 0 a.now b.now) }
{
    if a.is_empty() || b.is_empty() {
        return None;
    }
    let (x, y) = (a[0], b[0]);
    if x == y || x.is_ascii_digit() || y.is_ascii_digit() {
        return None;
    }
    Some(x.cmp(&y))
}

// The number of digits that follow the first `count` bytes of a name.
#[tactic(auto, using(std::proofs::lemmas::List::take_rest))]
fn digits_after(name: &[u8], count: usize) -> usize
    requires { count ≤ length name.now }
    ensures value { result ≡ prefix_len is_ascii_digit (drop count name.now) }
    ensures bound { count + result ≤ length name.now }
{
    digits_len(&name[count..])
}

// Whether the name begins with a digit other than zero.
fn begins_by_number(name: &[u8]) -> bool
    ensures { IsTrue result → BeginsByNumber name.now }
{
    !name.is_empty() && name[0] > b'0' && name[0] <= b'9'
}

// The order of two names that are in the middle of equal numbers after `count` bytes, or begin numbers there. It is known if the rest of
// the numbers differs: the number with more digits is greater, and among numbers of equal length the first digit decides.
fn compare_digits(a: &[u8], b: &[u8], count: usize) -> Option<Ordering>
    requires within { (count ≤ length a.now) × (count ≤ length b.now) }
    requires numbers { GoOnWithNumbers count a.now b.now }
    ensures { IfSome result (λ order. order ≡ token_order a.now b.now) }
{
    let (m, n) = (digits_after(a, count), digits_after(b, count));
    if m != n {
        return Some(m.cmp(&n));
    }
    if m == 0 || a[count] == b[count] {
        return None;
    }
    Some(a[count].cmp(&b[count]))
}

// The order of two names that begin with `count` equal digits, if the first number or the first byte decides it.
#[tactic(auto, using(crate::proofs::Fronts::after_equal))]
fn compare_fronts(a: &[u8], b: &[u8], count: usize) -> Option<Ordering>
    requires within { (count ≤ length a.now) × (count ≤ length b.now) }
    requires equal { AreEqualDigits count a.now b.now }
    ensures { IfSome result (λ order. order ≡ token_order a.now b.now) }
{
    if begins_by_number(a) && begins_by_number(b) {
        return compare_digits(a, b, count);
    }
    compare_first(a, b)
}

// The order of two names, compared part by part.
#[tactic(auto, using(crate::proofs::Runs::end_laws), unfolding(crate::specs::Order::tokens))]
fn compare_by_parts(a: &[u8], b: &[u8]) -> Ordering
    ensures { result ≡ token_order a.now b.now }
{
    let mut left = a;
    let mut right = b;
    while let Some((part, left_rest)) = next_part(left) {
        let Some((other, right_rest)) = next_part(right) else {
            return Ordering::Greater;
        };
        let order = compare_parts(part, other);
        if order != Ordering::Equal {
            return order;
        }
        left = left_rest;
        right = right_rest;
    }
    if right.is_empty() {
        Ordering::Equal
    } else {
        Ordering::Less
    }
}

// The order of two names by the first byte after their common prefix, if both have one and neither is a digit. This decides most names
// that aren't versions of one library.
fn compare_in_bytes(a: &[u8], b: &[u8], same: usize) -> Option<Ordering>
    requires within { (same ≤ length a.now) × (same ≤ length b.now) }
    requires same { take same a.now ≡ take same b.now }
    ensures { IfSome result (λ order. order ≡ token_order a.now b.now) }
{
    compare_first(&a[same..], &b[same..])
}

// The order of two names whose common prefix ends in a number, if the numbers differ. This decides most names that a sort compares.
#[tactic(auto, using(crate::proofs::Alike::in_numbers))]
fn compare_in_numbers(a: &[u8], b: &[u8], same: usize) -> Option<Ordering>
    requires within { (same ≤ length a.now) × (same ≤ length b.now) }
    requires same { take same a.now ≡ take same b.now }
    ensures { IfSome result (λ order. order ≡ token_order a.now b.now) }
{
    if ends_in_number(a, same) {
        compare_digits(a, b, same)
    } else {
        None
    }
}

// The order of two names whose first `same` bytes are equal. The comparison begins at the part that contains the next byte.
fn compare_after(a: &[u8], b: &[u8], same: usize) -> Ordering
    requires within { (same ≤ length a.now) × (same ≤ length b.now) }
    requires same { take same a.now ≡ take same b.now }
    ensures { result ≡ token_order a.now b.now }
{
    let passed = passed_len(a, b, same);
    let (left, right) = (&a[passed..], &b[passed..]);
    match compare_fronts(left, right, same - passed) {
        Some(order) => order,
        None => compare_by_parts(left, right),
    }
}

/// The loader's order of two names. It treats names that differ only in leading zeros of numbers as equal.
pub fn compare_tokens(a: &[u8], b: &[u8]) -> Ordering
    ensures { result ≡ token_order a.now b.now }
{
    let same = equal_len(a, b);
    if let Some(order) = compare_in_bytes(a, b, same) {
        return order;
    }
    match compare_in_numbers(a, b, same) {
        Some(order) => order,
        None => compare_after(a, b, same),
    }
}

/// The loader's order. If two names are equal in it, the order of their bytes.
#[tactic(auto, using(crate::proofs::Total::name_laws))]
pub fn compare(a: &[u8], b: &[u8]) -> Ordering
    ensures value { result ≡ name_order a.now b.now }
    ensures equal { (result ≡ Ordering.Equal) ↔ (a.now ≡ b.now) }
    ensures total { IsTotalOrder name_order }
{
    compare_tokens(a, b).then_with(|| a.cmp(b))
}

/// Whether a file with this name may be a library. The test uses only the name.
#[tactic(auto, unfolding(crate::specs::LibraryName::is_library_name))]
pub fn is_library_name(name: &[u8]) -> bool
    ensures { result ≡ is_library_name name.now }
{
    has_library_prefix(name)
        && contains_so(name)
        && !name.contains(&b';')
        && !has_temporary_suffix(name)
}

fn has_library_prefix(name: &[u8]) -> bool
    ensures { result ≡ has_library_prefix name.now }
{
    name.starts_with(b"lib") || name.starts_with(b"ld-")
}

/// Whether the name has a suffix that dpkg or prelink gives to a file before it renames it.
fn has_temporary_suffix(name: &[u8]) -> bool
    ensures { result ≡ has_temporary_suffix name.now }
{
    ends_with(name, b".dpkg-new") || ends_with(name, b".dpkg-tmp") || ends_with(name, b".#prelink#")
}

// Whether the name has this suffix. The last byte rules out most names that don't.
#[tactic(auto, using(crate::proofs::Suffix::too_short, crate::proofs::Suffix::other_end))]
fn ends_with(name: &[u8], suffix: &[u8]) -> bool
    requires { 0 < length suffix.now }
    ensures { result ≡ ends_with nat_eq name.now suffix.now }
{
    if name.len() < suffix.len() {
        return false;
    }
    if name[name.len() - 1] != suffix[suffix.len() - 1] {
        return false;
    }
    name.ends_with(suffix)
}

// Whether `.so` begins at this offset. The first byte rules out most offsets where it doesn't.
#[tactic(auto, using(crate::proofs::Contained::other_first))]
fn has_so_at(name: &[u8], at: usize) -> bool
    requires { at < length name.now }
    ensures { result ≡ starts_with nat_eq (drop at name.now) (codes ".so") }
{
    if name[at] != b'.' {
        return false;
    }
    name[at..].starts_with(b".so")
}

// Whether the name contains `.so`. The search begins at the end, since mostly a short version follows `.so` and a longer text precedes it.
#[tactic(auto, using(crate::proofs::Contained::so_laws))]
fn contains_so(name: &[u8]) -> bool
    ensures { result ≡ contains (codes ".so") name.now }
{
    let mut i = name.len();
    while i > 0 {
        i -= 1;
        if has_so_at(name, i) {
            return true;
        }
    }
    false
}

#[cfg(test)]
mod tests {
    use super::*;

    #[test]
    fn orders_names(rt: HostRuntime) {
        let rows: [(&[u8], &[u8]); 5] = [
            (b"libx.so.10", b"libx.so.9"),
            (b"libx.so.1", b"libx.so"),
            (b"lib1", b"liba"),
            (b"libx.so.1", b"libx.so.01"),
            (b"lib10a", b"lib9b"),
        ];
        for (above, below) in rows {
            assert_eq!(rt; compare(above, below), Ordering::Greater, "{above:?}");
            assert_eq!(rt; compare(below, above), Ordering::Less, "{above:?}");
            assert_eq!(rt; compare(above, above), Ordering::Equal, "{above:?}");
        }
        assert_eq!(rt;
            compare_tokens(b"libx.so.1", b"libx.so.01"),
            Ordering::Equal
        );
    }

    #[test]
    fn knows_library_names(rt: HostRuntime) {
        let rows: [(&[u8], bool); 8] = [
            (b"ld-linux.so.2", true),
            (b"libz.so.1", true),
            (b"libz.a", false),
            (b"ld.so.conf", false),
            (b"libz.so.1;5f3e", false),
            (b"libz.so.1.dpkg-new", false),
            (b"libz.so.1.dpkg-tmp", false),
            (b"libz.so.1.#prelink#", false),
        ];
        for (name, want) in rows {
            assert_eq!(rt; is_library_name(name), want, "{name:?}");
        }
    }
}
