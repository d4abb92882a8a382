//! Sets of bytes in patterns: `[..]`.
ghost use Rattle.std.specs.Prelude.{◌≡◌, ◌∷◌, ◌<◌, [], false, length, position, IfSome, MatchOption};
ghost use Rattle.conf_patterns.specs.Glob.{is_close, is_in_set, is_member, is_negated, no_end, ranges, set_len};
ghost use Rattle.conf_patterns.specs.Pieces.{begins_with_range, has_close};

fn is_negated(set: &[u8]) -> bool
    ensures { result ≡ is_negated set.now }
{
    set.len() > 0 && (set[0] == b'!' || set[0] == b'^')
}

// Whether the set begins with a range such as `a-z`.
fn begins_with_range(set: &[u8]) -> bool
    ensures { result ≡ begins_with_range set.now }
{
    set.len() > 2 && set[1] == b'-'
}

// The first range of a set, and the bytes after it.
#[tactic(auto, using(crate::proofs::Sets::range_of_two, crate::proofs::Sets::range_of_one))]
fn first_range(set: &[u8]) -> Option<(u8, u8, &[u8])>
    ensures range { MatchOption result (ranges set.now ≡ []) (λ r. ranges set.now ≡ (r.0, r.1) ∷ ranges r.2.now) }
    ensures shorter { MatchOption result (length set.now ≡ 0) (λ r. length r.2.now < length set.now) }
{
    if set.is_empty() {
        return None;
    }
    if begins_with_range(set) {
        return Some((set[0], set[2], &set[3..]));
    }
    Some((set[0], set[0], &set[1..]))
}

fn is_member(set: &[u8], b: u8) -> bool
    ensures { result ≡ is_member set.now b }
{
    let mut rest = set;
    while let Some((low, high, following)) = first_range(rest) {
        if low <= b && b <= high {
            return true;
        }
        rest = following;
    }
    false
}

/// Whether the byte is in the set between these brackets.
pub(crate) fn is_in_set(set: &[u8], b: u8) -> bool
    ensures { result ≡ is_in_set set.now b }
{
    if is_negated(set) {
        !is_member(&set[1..], b)
    } else {
        is_member(set, b)
    }
}

/// The number of bytes after the last `]`, or of all bytes if there is none.
pub(crate) fn unclosed_len(bytes: &[u8]) -> usize
    ensures { has_close result bytes.now ≡ false }
{
    let mut n = 0;
    while n < bytes.len() && bytes[bytes.len() - 1 - n] != b']' {
        n += 1;
    }
    n
}

// The number of bytes after a `[` that can't close the set.
fn no_end(following: &[u8]) -> usize
    ensures { result ≡ no_end following.now }
{
    if is_negated(following) { 2 } else { 1 }
}

fn first_close(bytes: &[u8]) -> Option<usize>
    ensures index { result ≡ position is_close bytes.now }
    ensures within { IfSome result (λ n. n < length bytes.now) }
{
    bytes.iter().position(|&b| b == b']')
}

/// The number of bytes between a `[` and the `]` that closes the set, if there is one.
#[tactic(auto, using(crate::proofs::Sets::no_set))]
pub(crate) fn set_len(following: &[u8], unclosed: usize) -> Option<usize>
    requires { has_close unclosed following.now ≡ false }
    ensures len { result ≡ set_len following.now }
    ensures within { IfSome result (λ n. n < length following.now) }
{
    let first = no_end(following);
    if following.len().saturating_sub(unclosed) <= first {
        return None;
    }
    let n = first_close(&following[first..])?;
    Some(first + n)
}
