//! Checks whether a file can be generated from a spec.
ghost use Rattle.std.specs.Prelude.{◌≡◌, true};
ghost use Rattle.std.specs.List.{list_all};
ghost use Rattle.std.specs.Option.{option_map_or};
ghost use Rattle.lib_types.specs.Name.{is_name};
ghost use Rattle.elf_maker.specs.Texts.{is_text};
ghost use Rattle.elf_maker.specs.Made.{is_spec};

use crate::kinds::Spec;
use elf_dynamic::TEXT_LIMIT;
use lib_types::{Text, is_name};

// Whether a text and its NUL fit in the `TEXT_LIMIT` bytes that are read of a string.
fn is_text(text: &[u8]) -> bool
    ensures { result ≡ is_text text.now }
{
    !text.contains(&0) && text.len() < TEXT_LIMIT as usize
}

fn are_texts(texts: &[Text]) -> bool
    ensures { result ≡ list_all is_text texts.now }
{
    texts.iter().all(|text| is_text(text.as_bytes()))
}

fn is_optional_text(text: &Option<Text>) -> bool
    ensures { result ≡ option_map_or is_text text.now true }
{
    match text {
        Some(text) => is_text(text.as_bytes()),
        None => true,
    }
}

fn is_optional_name(name: &Option<Text>) -> bool
    ensures { result ≡ option_map_or is_name name.now true }
{
    match name {
        Some(name) => is_name(name.as_bytes()),
        None => true,
    }
}

/// Whether `make` accepts the spec: `etype` is 2 or 3, each text has no NUL and less than `TEXT_LIMIT` bytes, and a soname is
/// a name.
#[tactic(auto, unfolding(crate::specs::Made::is_spec))]
pub fn is_spec(spec: &Spec) -> bool
    ensures { result ≡ is_spec spec.now }
{
    let dynamic = &spec.dynamic;
    matches!(spec.etype, 2 | 3)
        && are_texts(dynamic.needed.as_slice())
        && is_optional_name(&dynamic.soname)
        && is_optional_text(&dynamic.rpath)
        && is_optional_text(&dynamic.runpath)
}
