//! The number of entries in a cache, from the first bytes of its file, and its strings.
ghost use Rattle.std.specs.Prelude.{◌≡◌};
ghost use Rattle.std.specs.Option.{option_copied};
ghost use Rattle.device_rules.specs.Head.{entries_in, strings_in};

use cache_layout::{ENTRY_SIZE, HEADER_SIZE, MAGIC, u32_at};

/// The number of first bytes of a cache file that include its entry count.
pub const HEAD_SIZE: usize = 24;

/// The entry count in these first bytes of a file, if they are those of a cache.
pub fn entries_in(bytes: &[u8]) -> Option<u32>
    ensures { result ≡ entries_in bytes.now }
{
    if bytes.len() >= HEAD_SIZE && bytes.starts_with(MAGIC) {
        Some(u32_at(bytes, 20))
    } else {
        None
    }
}

/// The strings in the bytes of a cache, one after the other, each followed by a NUL. None if they are not all there.
pub fn strings_in(bytes: &[u8]) -> Option<&[u8]>
    ensures { option_copied result ≡ strings_in bytes.now }
{
    let entries = entries_in(bytes)?;
    let start = HEADER_SIZE + ENTRY_SIZE * entries as usize;
    if start > bytes.len() {
        return None;
    }
    let rest = &bytes[start..];
    let length = u32_at(bytes, 24) as usize;
    if length > rest.len() {
        return None;
    }
    Some(&rest[..length])
}
