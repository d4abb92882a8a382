//! The common prefix of two names, and the part of it that doesn't affect their order.
ghost use Rattle.std.specs.Prelude.{◌≡◌, ◌+◌, ◌-◌, ◌≤◌, IsTrue, drop, length, slice_index_or, take};
ghost use Rattle.std.specs.Char.{is_ascii_digit};
ghost use Rattle.name_order.specs.Digits.{AreDigitsWithin, AreEqualDigits, EndsInNumber, IsFree};
ghost use Rattle.name_order.specs.Order.{token_order};

/// Whether the first `count` bytes of a name end in a digit other than zero.
pub(crate) fn ends_in_number(name: &[u8], count: usize) -> bool
    requires { count ≤ length name.now }
    ensures { IsTrue result → EndsInNumber count name.now }
{
    count > 0 && name[count - 1] > b'0' && name[count - 1] <= b'9'
}

// Whether the byte at this offset is a digit.
fn has_digit_at(name: &[u8], at: usize) -> bool
    ensures { result ≡ is_ascii_digit (slice_index_or name.now at 0) }
{
    at < name.len() && name[at].is_ascii_digit()
}

// The offset at which the run of digits that ends at `end` begins.
#[tactic(auto, using(crate::proofs::Alike::digit_laws))]
fn digits_from(name: &[u8], end: usize) -> usize
    requires { end ≤ length name.now }
    ensures within { result ≤ end }
    ensures digits { AreDigitsWithin name.now result end }
    ensures begin { IsFree result name.now }
{
    let mut i = end;
    while i > 0 && name[i - 1].is_ascii_digit() {
        i -= 1;
    }
    i
}

/// The number of equal bytes at the front that can be skipped, if the first `same` bytes are equal. If a digit follows them in one of the
/// names, a number that they end in is not skipped, since it continues there. Otherwise all of them are skipped.
#[tactic(auto, using(crate::proofs::Alike::front_laws))]
pub(crate) fn passed_len(a: &[u8], b: &[u8], same: usize) -> usize
    requires within { (same ≤ length a.now) × (same ≤ length b.now) }
    requires same { take same a.now ≡ take same b.now }
    ensures within { result ≤ same }
    ensures rest { token_order (drop result a.now) (drop result b.now) ≡ token_order a.now b.now }
    ensures digits { AreEqualDigits (same - result) (drop result a.now) (drop result b.now) }
{
    if has_digit_at(a, same) || has_digit_at(b, same) {
        digits_from(a, same)
    } else {
        same
    }
}
