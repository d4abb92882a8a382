//! The parts of a name that the loader compares, without a copy.
ghost use Rattle.std.specs.Prelude.{◌≡◌, ◌==◌, ◌≤◌, MatchOption, [], length};
ghost use Rattle.std.specs.List.{prefix_len};
ghost use Rattle.std.specs.Char.{is_ascii_digit};
ghost use Rattle.std.specs.Str.{byte};
ghost use Rattle.std.specs.Ordering.{nat_cmp};
ghost use Rattle.name_order.specs.Order.{token_cmp, tokens, value};
ghost use Rattle.name_order.specs.Digits.{AreDigits, significant};
ghost use Rattle.name_order.specs.Part.{BeginsWith, IsPart, token_of};

use std::cmp::Ordering;

/// A unit of comparison: a byte, or a run of digits as they are written.
#[derive(Clone, Copy)]
pub(crate) enum Part<'a> {
    Byte(u8),
    Digits(&'a [u8]),
}

/// The first part of a name, and the rest of the name.
#[tactic(auto, using(crate::proofs::Runs::run_laws))]
pub(crate) fn next_part(name: &[u8]) -> Option<(Part<'_>, &[u8])>
    ensures { MatchOption result (name.now ≡ []) (λ next. BeginsWith name.now next.0 next.1.now) }
{
    let count = digits_len(name);
    if count > 0 {
        let (digits, rest) = name.split_at(count);
        return Some((Part::Digits(digits), rest));
    }
    match name {
        [] => None,
        [byte, rest @ ..] => Some((Part::Byte(*byte), rest)),
    }
}

/// The number of digits at the front of a name.
pub(crate) fn digits_len(name: &[u8]) -> usize
    ensures value { result ≡ prefix_len is_ascii_digit name.now }
    ensures bound { result ≤ length name.now }
{
    name.iter().take_while(|byte| byte.is_ascii_digit()).count()
}

/// The order of two parts. A byte is below a number.
pub(crate) fn compare_parts(a: Part<'_>, b: Part<'_>) -> Ordering
    requires first { IsPart a }
    requires second { IsPart b }
    ensures { result ≡ token_cmp (token_of a.entry) (token_of b.entry) }
{
    match (a, b) {
        (Part::Byte(x), Part::Byte(y)) => x.cmp(&y),
        (Part::Byte(_), Part::Digits(_)) => Ordering::Less,
        (Part::Digits(_), Part::Byte(_)) => Ordering::Greater,
        (Part::Digits(x), Part::Digits(y)) => compare_numbers(x, y),
    }
}

/// The order of two numbers of any size. Without leading zeros, the longer number is the greater one.
#[tactic(auto, using(crate::proofs::Numbers::number_laws))]
fn compare_numbers(a: &[u8], b: &[u8]) -> Ordering
    requires first { AreDigits a.now }
    requires second { AreDigits b.now }
    ensures { result ≡ nat_cmp (value a.now) (value b.now) }
{
    let x = without_zeros(a);
    let y = without_zeros(b);
    x.len().cmp(&y.len()).then_with(|| x.cmp(y))
}

#[tactic(auto, using(std::proofs::lemmas::List::take_rest))]
fn without_zeros(digits: &[u8]) -> &[u8]
    ensures { result.now ≡ significant digits.now }
{
    &digits[zeros_len(digits)..]
}

fn zeros_len(digits: &[u8]) -> usize
    ensures value { result ≡ prefix_len (λ digit. digit == byte "0") digits.now }
    ensures bound { result ≤ length digits.now }
{
    digits.iter().take_while(|digit| **digit == b'0').count()
}
