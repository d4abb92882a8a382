//! Names that the loader finds in its cache.
#![tactic(auto)]

ghost use Rattle.std.specs.Prelude.{◌≡◌};
ghost use Rattle.searchable_names.specs.Searchable.{has_long_number, is_ascii, is_searchable};

// The most digits of a number that a C `int` holds, whatever the digits are.
const DIGITS_MAX: usize = 9;

/// Whether the loader finds this name in its cache, and the names of other entries beside it: each byte is ASCII, and each number has at
/// most nine digits.
#[tactic(auto, unfolding(crate::specs::Searchable::is_searchable))]
pub fn is_searchable(name: &[u8]) -> bool
    ensures { result ≡ is_searchable name.now }
{
    is_ascii(name) && !has_long_number(name)
}

fn is_ascii(name: &[u8]) -> bool
    ensures { result ≡ is_ascii name.now }
{
    name.iter().all(|byte| *byte <= 127)
}

// Whether a number in the name has more digits than that.
#[tactic(auto, using(crate::proofs::Numbers::number_laws))]
fn has_long_number(name: &[u8]) -> bool
    ensures { result ≡ has_long_number name.now }
{
    let mut digits: usize = 0;
    for byte in name {
        if !byte.is_ascii_digit() {
            digits = 0;
            continue;
        }
        if digits == DIGITS_MAX {
            return true;
        }
        digits += 1;
    }
    false
}
