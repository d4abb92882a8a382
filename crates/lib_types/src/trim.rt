//! Searches for bytes of a set, and slices without the bytes of a set at the front or at the end.
ghost use Rattle.std.specs.Prelude.{◌≡◌, ◌<◌, ◌≤◌, ◌-◌, not, length, drop, position, IfSome};
ghost use Rattle.std.specs.List.{before_first, before_last, list_any, prefix_len, suffix_len};
ghost use Rattle.lib_types.specs.Sets.{is_in, without_end, without_front};

/// Whether the byte is in the set.
pub fn is_in(set: &[u8], b: u8) -> bool
    ensures { result ≡ is_in set.now b }
{
    set.iter().any(|&x| x == b)
}

/// Whether one of the bytes is in the set.
pub fn has_one(set: &[u8], bytes: &[u8]) -> bool
    ensures { result ≡ list_any (is_in set.now) bytes.now }
{
    bytes.iter().any(|&b| is_in(set, b))
}

/// The index of the first byte of the set.
pub fn first_in(set: &[u8], bytes: &[u8]) -> Option<usize>
    ensures index { result ≡ position (is_in set.now) bytes.now }
    ensures within { IfSome result (λ n. n < length bytes.now) }
{
    bytes.iter().position(|&b| is_in(set, b))
}

/// The bytes after the first n.
pub fn after(bytes: &[u8], n: usize) -> &[u8]
    requires { n ≤ length bytes.now }
    ensures { result.now ≡ drop n bytes.now }
{
    &bytes[n..]
}

/// The bytes before the first byte of the set, or all bytes if none is in the set.
#[tactic(auto, using(crate::proofs::Ends::before_position, crate::proofs::Ends::before_none))]
pub fn before_first<'a>(set: &[u8], bytes: &'a [u8]) -> &'a [u8]
    ensures { result.now ≡ before_first (is_in set.now) bytes.now }
{
    match first_in(set, bytes) {
        Some(n) => &bytes[..n],
        None => bytes,
    }
}

// The number of bytes of the set at the front.
#[tactic(auto, using(crate::proofs::Ends::front_more, crate::proofs::Ends::front_stops, crate::proofs::Ends::front_ends))]
fn front_len(set: &[u8], bytes: &[u8]) -> usize
    ensures len { result ≡ prefix_len (is_in set.now) bytes.now }
    ensures within { result ≤ length bytes.now }
{
    let mut n = 0;
    while n < bytes.len() && is_in(set, bytes[n]) {
        n += 1;
    }
    n
}

// The length without the bytes of the set at the end.
#[tactic(auto, using(crate::proofs::Ends::end_more, crate::proofs::Ends::end_stops, crate::proofs::Ends::whole_end))]
fn end_len(set: &[u8], bytes: &[u8]) -> usize
    ensures len { result ≡ length bytes.now - suffix_len (is_in set.now) bytes.now }
    ensures within { result ≤ length bytes.now }
{
    let mut n = bytes.len();
    while n > 0 && is_in(set, bytes[n - 1]) {
        n -= 1;
    }
    n
}

// The length up to and including the last byte of the set.
#[tactic(auto, using(crate::proofs::Ends::end_more, crate::proofs::Ends::end_stops, crate::proofs::Ends::whole_end))]
fn last_len(set: &[u8], bytes: &[u8]) -> usize
    ensures len { result ≡ length bytes.now - suffix_len (λ b. not (is_in set.now b)) bytes.now }
    ensures within { result ≤ length bytes.now }
{
    let mut n = bytes.len();
    while n > 0 && !is_in(set, bytes[n - 1]) {
        n -= 1;
    }
    n
}

/// The bytes without those of the set at the front.
pub fn without_front<'a>(set: &[u8], bytes: &'a [u8]) -> &'a [u8]
    ensures { result.now ≡ without_front set.now bytes.now }
{
    after(bytes, front_len(set, bytes))
}

/// The bytes without those of the set at the end.
pub fn without_end<'a>(set: &[u8], bytes: &'a [u8]) -> &'a [u8]
    ensures { result.now ≡ without_end set.now bytes.now }
{
    &bytes[..end_len(set, bytes)]
}

/// The bytes before the last byte of the set, or no bytes if none is in the set.
pub fn before_last<'a>(set: &[u8], bytes: &'a [u8]) -> &'a [u8]
    ensures { result.now ≡ before_last (is_in set.now) bytes.now }
{
    &bytes[..last_len(set, bytes).saturating_sub(1)]
}
