//! Where strings are, found without sorting: by comparing each string with all others.
use lib_types::NoMemory;
use std::alloc::Global;

// Whether the string at this index occurs before it too.
fn is_again(texts: &[Vec<u8>], index: usize) -> bool {
    match texts.get(index) {
        Some(text) => texts[..index.min(texts.len())].contains(text),
        None => true,
    }
}

// Whether a string is not the end of another one.
fn is_written(texts: &[Vec<u8>], text: &[u8]) -> bool {
    for other in texts {
        if other.len() > text.len() && other.ends_with(text) {
            return false;
        }
    }
    true
}

/// The strings that have bytes of their own, in order of first use.
pub(crate) fn written<'a>(alloc: Global, texts: &'a [Vec<u8>]) -> Result<Vec<&'a [u8]>, NoMemory> {
    let mut written = Vec::new(alloc);
    for (index, text) in texts.iter().enumerate() {
        if !is_again(texts, index) && is_written(texts, text) {
            written.push(text.as_slice())?;
        }
    }
    Ok(written)
}

/// The bytes of these strings, each with its NUL.
pub(crate) fn table(alloc: Global, written: &[&[u8]]) -> Result<Vec<u8>, NoMemory> {
    let mut table = Vec::new(alloc);
    for text in written {
        table.extend_from_slice(*text)?;
        table.push(0)?;
    }
    Ok(table)
}

/// The offset of a string in their table: in the first string that ends in it.
pub(crate) fn offset(written: &[&[u8]], text: &[u8]) -> Option<u32> {
    let mut at = 0u32;
    for other in written {
        let length = u32::try_from(other.len()).unwrap_or(0);
        if other.ends_with(text) {
            let end = u32::try_from(text.len()).unwrap_or(0);
            return Some(at.saturating_add(length).saturating_sub(end));
        }
        at = at.saturating_add(length).saturating_add(1);
    }
    None
}
