//! The path that the first word of a line names.
ghost use Rattle.std.specs.Prelude.{◌≡◌, [], ◌∷◌, drop, IfOk};
ghost use Rattle.manifest_words.specs.Paths.{is_full, is_directive, decoded_each, names_of};
ghost use Rattle.manifest_words.specs.Naming.{Names};

use crate::escape::decode;
use lib_types::{NoMemory, Separator, has_byte, is_name, split};
use tree_face::is_kept;

/// The bytes without the first byte: a word without its first character, or a path without its first slash.
pub fn after_first(bytes: &[u8]) -> &[u8]
    ensures { result.now ≡ drop 1 bytes.now }
{
    if bytes.is_empty() { bytes } else { &bytes[1..] }
}

/// Whether a word is a full path from the root, and not a name in the current directory.
pub fn is_full(word: &[u8]) -> bool
    ensures { result ≡ is_full word.now }
{
    has_byte(b'/', after_first(word))
}

/// Whether a word is `/NAME` without a further slash.
pub fn is_directive(word: &[u8]) -> bool
    ensures { result ≡ is_directive word.now }
{
    word.starts_with(b"/") && !is_full(word)
}

/// Appends a slash and a component's name. Returns whether it is a valid name, or None if an escape is bad.
fn append_name(out: &mut Vec<u8>, component: &[u8]) -> Result<Option<bool>, NoMemory>
    ensures { IfOk result (λ good. Names out.old.items out.new.items (decoded_each (component.now ∷ [])) good) }
{
    out.push(b'/')?;
    let start = out.len();
    if decode(out, component)? {
        Ok(Some(is_name(&out.as_slice()[start..])))
    } else {
        Ok(None)
    }
}

/// Appends the names of a first word, each with a slash before it. Returns whether all are valid names, or None if an escape is bad.
pub fn append_names(out: &mut Vec<u8>, word: &[u8]) -> Result<Option<bool>, NoMemory>
    ensures { IfOk result (λ good. Names out.old.items out.new.items (names_of word.now) good) }
{
    let mut good = true;
    for component in split(Separator::Byte(b'/'), word) {
        if is_kept(component) {
            let Some(is_name) = append_name(out, component)? else {
                return Ok(None);
            };
            good = good && is_name;
        }
    }
    Ok(Some(good))
}
