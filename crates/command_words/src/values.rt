//! The values of arguments.
ghost use Rattle.std.specs.Prelude.{◌≡◌, ◌<◌, ◌^◌, length, nat_lt, option_map, if◌then◌else◌, Some, None, IfOk, IsTrue};
ghost use Rattle.std.specs.Char.{is_ascii_digit};
ghost use Rattle.std.specs.List.{list_all};
ghost use Rattle.std.specs.Str.Parse.{digits_value};
ghost use Rattle.command_words.specs.Values.{are_keys, caps_in, is_key, is_true, is_value, number_in};

use lib_types::{NoMemory, Separator, Text, Texts, split};
use std::alloc::Global;
use tree_face::NODE_TEXT_MAX;

/// The most layers of an image. The usage text of `ldconfig` (texts.rt) and the message in `keys_by` repeat it.
const LAYERS_MAX: usize = 64;

/// Whether the text may be a value.
pub(crate) fn is_value(text: &str) -> bool
    ensures { result ≡ is_value text.now }
{
    text.as_bytes() != b"-".as_slice()
}

/// Whether the text is that of a flag that is given.
pub(crate) fn is_true(text: &str) -> bool
    ensures { result ≡ is_true text.now }
{
    text.as_bytes() == b"true".as_slice()
}

fn is_key(text: &[u8]) -> bool
    ensures { result ≡ is_key text.now }
{
    1 <= text.len() && text.len() <= NODE_TEXT_MAX
}

fn are_all_keys(texts: &[Text]) -> bool
    ensures { result ≡ list_all is_key texts.now }
{
    texts.iter().all(|text| is_key(text.as_bytes()))
}

/// Whether the texts are the keys of layers.
pub(crate) fn are_keys(texts: &[Text]) -> bool
    ensures { result ≡ are_keys texts.now }
{
    1 <= texts.len() && texts.len() <= LAYERS_MAX && are_all_keys(texts)
}

fn are_digits(text: &[u8]) -> bool
    ensures { result ≡ list_all is_ascii_digit text.now }
{
    text.iter().all(|b| b.is_ascii_digit())
}

// The number of some digits, if it is below 2^64.
#[tactic(auto, using(manifest_words::proofs::Numbers::parsed))]
fn number_of(digits: &str) -> Option<u64>
    requires some { 0 < length digits.now }
    requires digits { IsTrue (list_all is_ascii_digit digits.now) }
    ensures { result ≡ (if nat_lt (digits_value 10 digits.now) (2 ^ 64) then Some (digits_value 10 digits.now) else None) }
{
    digits.parse::<u64>().ok()
}

/// The number that one to five decimal digits write, if it is below 2^16.
pub(crate) fn number(text: &str) -> Option<u16>
    ensures { result ≡ number_in text.now }
{
    if text.is_empty() || text.len() > 5 || !are_digits(text.as_bytes()) {
        return None;
    }
    u16::try_from(number_of(text)?).ok()
}

/// The texts between colons that aren't empty.
pub(crate) fn caps_in(alloc: Global, text: &[u8]) -> Result<Texts, NoMemory>
    ensures { IfOk result (λ caps. caps ≡ caps_in text.now) }
{
    let mut caps = Texts::new(alloc);
    for part in split(Separator::Byte(b':'), text) {
        if !part.is_empty() {
            caps.push(Text::copy_of(alloc, part)?)?;
        }
    }
    Ok(caps)
}
