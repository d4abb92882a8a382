//! Checks the header and the entries of a file.
ghost use Rattle.std.specs.Prelude.{◌≡◌, ◌<◌, ◌≤◌, length, flat_map};
ghost use Rattle.cache_layout.specs.Layout.{is_named, name_index};
ghost use Rattle.cache_reader.specs.Cache.{nlibs, first_defect, magic_sentences, header_sentences, entry_sentences, hwcap_sentences, indexes, from_entry, name_offsets, flags, extension, strings_length};
ghost use Rattle.cache_reader.specs.Checks.{checked, EndsAt, HasEntries};

use crate::CacheDefect;
use cache_layout::{ENTRY_SIZE, HEADER_SIZE, MAGIC, OLD_MAGIC, u32_at, u64_at};

/// The number of entries.
pub fn nlibs(bytes: &[u8]) -> u32
    requires { 48 ≤ length bytes.now }
    ensures { result ≡ nlibs bytes.now }
{
    u32_at(&bytes[20..], 0)
}

fn strings_length(bytes: &[u8]) -> u32
    requires { 48 ≤ length bytes.now }
    ensures { result ≡ strings_length bytes.now }
{
    u32_at(&bytes[20..], 4)
}

fn flags(bytes: &[u8]) -> u8
    requires { 48 ≤ length bytes.now }
    ensures { result ≡ flags bytes.now }
{
    bytes[28]
}

/// The offset of the extension directory.
pub fn extension(bytes: &[u8]) -> u32
    requires { 48 ≤ length bytes.now }
    ensures { result ≡ extension bytes.now }
{
    u32_at(&bytes[20..], 12)
}

/// The bytes from the entry with this index to the end.
pub fn from_entry(bytes: &[u8], index: usize) -> &[u8]
    requires entries { HasEntries bytes.now }
    requires index { index < nlibs bytes.now }
    ensures { result.now ≡ from_entry bytes.now index }
{
    &bytes[HEADER_SIZE + ENTRY_SIZE * index..]
}

/// The offset directly after the last NUL, or 0 if there isn't one.
pub fn end_of_texts(bytes: &[u8]) -> usize
    ensures { EndsAt bytes.now result }
{
    let mut end = bytes.len();
    while end > 0 && bytes[end - 1] != 0 {
        end -= 1;
    }
    end
}

/// Checks the magic and the version.
pub fn check_magic(bytes: &[u8]) -> Result<(), CacheDefect>
    ensures { result ≡ checked (first_defect (magic_sentences bytes.now)) }
{
    if bytes.starts_with(OLD_MAGIC) {
        return Err(CacheDefect::OldFormat);
    }
    if bytes.len() < HEADER_SIZE {
        return Err(CacheDefect::Short {
            len: bytes.len() as u64,
        });
    }
    if !bytes.starts_with(MAGIC) {
        return Err(CacheDefect::BadMagic);
    }
    Ok(())
}

/// Checks the numbers in the header.
pub fn check_header(bytes: &[u8]) -> Result<(), CacheDefect>
    requires { 48 ≤ length bytes.now }
    ensures { result ≡ checked (first_defect (header_sentences bytes.now)) }
{
    let flags = flags(bytes);
    if flags % 2 == 1 {
        return Err(CacheDefect::BadEndian {
            flags: u64::from(flags),
        });
    }
    let count = nlibs(bytes) as usize;
    let end = HEADER_SIZE + ENTRY_SIZE * count + strings_length(bytes) as usize;
    if bytes.len() < end {
        return Err(CacheDefect::EntriesOutside {
            nlibs: count as u64,
        });
    }
    Ok(())
}

// Checks the strings of an entry.
fn check_entry(bytes: &[u8], index: usize, end: usize) -> Result<(), CacheDefect>
    requires entries { HasEntries bytes.now }
    requires index { index < nlibs bytes.now }
    requires end { EndsAt bytes.now end }
    ensures { result ≡ checked (first_defect (entry_sentences bytes.now index)) }
{
    let entry = from_entry(bytes, index);
    let key = u32_at(entry, 4) as usize;
    let value = u32_at(entry, 8) as usize;
    if key >= bytes.len() || value >= bytes.len() {
        return Err(CacheDefect::StringOutside {
            entry: index as u64,
        });
    }
    if key >= end || value >= end {
        return Err(CacheDefect::NoNul {
            entry: index as u64,
        });
    }
    Ok(())
}

/// Checks the strings of all entries, in order.
#[tactic(auto, using(crate::proofs::Ranges::passed, crate::proofs::Ranges::failed, crate::proofs::Ranges::all_passed, crate::proofs::Ranges::none_passed))]
pub fn check_entries(bytes: &[u8], end: usize) -> Result<(), CacheDefect>
    requires entries { HasEntries bytes.now }
    requires end { EndsAt bytes.now end }
    ensures { result ≡ checked (first_defect (flat_map (entry_sentences bytes.now) (indexes bytes.now))) }
{
    let count = nlibs(bytes) as usize;
    for index in 0..count {
        check_entry(bytes, index, end)?;
    }
    Ok(())
}

/// Whether a hwcap is the index of a hwcaps name.
pub fn is_named(hwcap: u64) -> bool
    ensures { result ≡ is_named hwcap }
{
    (hwcap >> 62) % 2 == 1
}

/// The index of the hwcaps name: the low 32 bits of the hwcap.
pub fn name_index(hwcap: u64) -> usize
    ensures { result ≡ name_index hwcap }
{
    (hwcap % (1 << 32)) as usize
}

// Checks the hwcap of an entry, if there are this many hwcaps names.
fn check_hwcap(bytes: &[u8], index: usize, names: usize) -> Result<(), CacheDefect>
    requires entries { HasEntries bytes.now }
    requires index { index < nlibs bytes.now }
    requires names { names ≡ length (name_offsets bytes.now) }
    ensures { result ≡ checked (first_defect (hwcap_sentences bytes.now index)) }
{
    let hwcap = u64_at(from_entry(bytes, index), 16);
    if is_named(hwcap) && name_index(hwcap) >= names {
        return Err(CacheDefect::BadHwcap {
            entry: index as u64,
        });
    }
    Ok(())
}

/// Checks the hwcaps of all entries, if there are this many hwcaps names.
#[tactic(auto, using(crate::proofs::Ranges::passed, crate::proofs::Ranges::failed, crate::proofs::Ranges::all_passed, crate::proofs::Ranges::none_passed))]
pub fn check_hwcaps(bytes: &[u8], names: usize) -> Result<(), CacheDefect>
    requires entries { HasEntries bytes.now }
    requires names { names ≡ length (name_offsets bytes.now) }
    ensures { result ≡ checked (first_defect (flat_map (hwcap_sentences bytes.now) (indexes bytes.now))) }
{
    let count = nlibs(bytes) as usize;
    for index in 0..count {
        check_hwcap(bytes, index, names)?;
    }
    Ok(())
}
