//! Searches for a byte in a slice.
ghost use Rattle.std.specs.Prelude.{◌≡◌, ◌<◌, position, length, IfSome};
ghost use Rattle.std.specs.List.{list_any};
ghost use Rattle.lib_types.specs.Bytes.{is_byte, is_either};

use memchr::{memchr, memchr2};

/// The index of the first byte that equals `byte`.
#[tactic(auto, using(crate::proofs::FirstByte::first_is))]
pub fn find_byte(byte: u8, bytes: &[u8]) -> Option<usize>
    ensures index { result ≡ position (is_byte byte) bytes.now }
    ensures within { IfSome result (λ n. n < length bytes.now) }
{
    memchr(byte, bytes)
}

/// The index of the first byte that equals `a` or `b`.
#[tactic(auto, using(crate::proofs::FirstByte::first_is))]
pub fn find_either(a: u8, b: u8, bytes: &[u8]) -> Option<usize>
    ensures index { result ≡ position (is_either a b) bytes.now }
    ensures within { IfSome result (λ n. n < length bytes.now) }
{
    memchr2(a, b, bytes)
}

/// Whether one of the bytes equals `byte`.
#[tactic(auto, using(crate::proofs::FirstByte::is_some_position))]
pub fn has_byte(byte: u8, bytes: &[u8]) -> bool
    ensures { result ≡ list_any (is_byte byte) bytes.now }
{
    find_byte(byte, bytes).is_some()
}
