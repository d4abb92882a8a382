//! The texts that values of `contents` and `link` represent.
ghost use Rattle.std.specs.Prelude.{◌≡◌, IfOk};
ghost use Rattle.mtree_manifest.specs.Manifest.{text_of};

use lib_types::{NoMemory, Text, are_same};
use manifest_words::decode;
use std::alloc::Global;
use std::marker::Model;

/// The last value of `contents` or `link` that was read. If many lines have the same default value, its text is decoded once and shared.
/// So a long default takes its memory only once.
#[derive(Drop)]
pub(crate) struct LastValue<'a> {
    // the value as written, with its escapes
    written: &'a [u8],
    // the text that the value represents, from the second line on that has the value
    text: Option<Text>,
}

impl<'a> Model for LastValue<'a> {
    ghost use Rattle.std.specs.Prelude.{◌≡◌, ℕ, List};
    ghost use Rattle.std.specs.Option.{ForSome};
    ghost use Rattle.mtree_manifest.specs.Manifest.{text_of};

    ghost Value = { List ℕ };

    ghost view = { λ v. v.written.now };

    ghost invariant = { λ v. ForSome v.text (λ text. text ≡ text_of v.written.now) };
}

// The text that a value represents.
fn text_of(alloc: Global, value: &[u8]) -> Result<Text, NoMemory>
    ensures { IfOk result (λ text. text ≡ text_of value.now) }
{
    let mut bytes = Vec::with_capacity(alloc, value.len())?;
    if decode(&mut bytes, value)? {
        Ok(Text::from_vec(bytes))
    } else {
        Ok(Text::from_vec(Vec::new(alloc)))
    }
}

impl<'a> LastValue<'a> {
    /// No value.
    pub(crate) fn none() -> LastValue<'a> {
        LastValue {
            written: b"",
            text: None,
        }
    }

    // The text of the last value, shared between lines.
    fn shared(&mut self, alloc: Global) -> Result<Text, NoMemory>
        ensures { IfOk result (λ text. text ≡ text_of self.old) }
    {
        if let Some(text) = &self.text {
            return text.copy(alloc);
        }
        let text = text_of(alloc, self.written)?.into_shared(alloc)?;
        let copy = text.copy(alloc)?;
        self.text = Some(text);
        Ok(copy)
    }

    /// The text that a value represents.
    pub(crate) fn text_of(&mut self, alloc: Global, value: &'a [u8]) -> Result<Text, NoMemory>
        ensures { IfOk result (λ text. text ≡ text_of value.entry.now) }
    {
        if are_same(value, self.written) {
            return self.shared(alloc);
        }
        *self = LastValue {
            written: value,
            text: None,
        };
        text_of(alloc, value)
    }
}
