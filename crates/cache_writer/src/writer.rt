//! The bytes of a cache.
ghost use Rattle.std.specs.Prelude.{◌≡◌, ◌+◌, ◌*◌, ◌++◌, ◌<◌, ◌≤◌, ℕ, true, length, All, IfOk, IfSome, None, OnOk, map, flat_map, replicate};
ghost use Rattle.byteorder.specs.Endian.{little_bytes};
ghost use Rattle.lib_types.specs.Abi.{flags_of};
ghost use Rattle.lib_types.specs.Name.{is_name};
ghost use Rattle.string_pool.specs.Texts.{number_of};
ghost use Rattle.string_pool.specs.SharedEnds.{shared_place, shared_table};
ghost use Rattle.cache_layout.specs.declared.limits.TheConstants.{ENTRIES_MAX, STRINGS_LIMIT, STRING_MAX};
ghost use Rattle.cache_writer.specs.CacheText.{cache_text, header, hwcap_of, entry_bytes, hwcaps_names, directory, section, section_count};
ghost use Rattle.cache_writer.specs.Numbers.{AreAmong, HasNumbers};
ghost use Rattle.cache_writer.specs.Joined.{joined, offset_bytes};
ghost use Rattle.image_tree.specs.Node.{has_no_nul};
ghost use Rattle.cache_writer.specs.ReadBack.{as_read};
ghost use Rattle.cache_reader.specs.Cache.{defect, read};

use crate::names::Names;
use crate::numbers::{NumberedEntry, number_entries, number_names};
use byteorder::{ByteOrder, LittleEndian};
use cache_layout::{
    DIRECTORY_SIZE, ENTRY_SIZE, EXTENSION_MAGIC, GENERATOR_TAG, HEADER_SIZE, LITTLE_ENDIAN, MAGIC,
    NAMES_TAG, SECTION_SIZE,
};
use lib_types::{Abi, Entries, Entry, NAME_MAX, NoMemory};
use std::alloc::Global;
use string_pool::{Pool, Sealed};

// The bit that marks a hwcap as the index of a hwcaps name.
const NAMED: u64 = 1 << 62;

// Part of the file format: a new version of the program that writes the same caches keeps it, so that an update changes none.
const GENERATOR: &[u8] = b"ldconfig (image profile) release version 1";

/// The bytes of a cache with these entries.
pub fn write(alloc: Global, entries: &Entries) -> Result<Vec<u8>, NoMemory>
    requires few { length entries.now ≤ ENTRIES_MAX }
    requires sonames { All (λ entry. is_name entry.soname ≡ true) entries.now }
    requires caps { All (λ entry. IfSome entry.cap (λ cap. is_name cap ≡ true)) entries.now }
    requires paths { All (λ entry. length entry.path ≤ STRING_MAX) entries.now }
    requires no_nul { All (λ entry. has_no_nul entry.path ≡ true) entries.now }
    ensures bytes { IfOk result (λ bytes. bytes.items ≡ cache_text entries.now) }
    ensures accepted { IfOk result (λ bytes. defect bytes.items ≡ None) }
    ensures read_back { IfOk result (λ bytes. read bytes.items ≡ map (as_read (hwcaps_names entries.now)) entries.now) }
{
    let entries = entries.as_slice();
    let names = Names::of(alloc, entries)?;
    let mut strings = Pool::with_capacity(alloc, 2 * entries.len())?;
    let numbered = number_entries(alloc, &mut strings, entries)?;
    let numbers = number_names(alloc, &mut strings, &names)?;
    let start = HEADER_SIZE + ENTRY_SIZE * entries.len();
    let sealed = strings.seal(alloc, start as u32)?;
    join(alloc, &sealed, &names, &numbered, &numbers)
}

// The bytes of a file with these strings, entries and hwcaps names. `numbers` are the indexes of the names in the list of strings.
#[tactic(auto, unfolding(crate::specs::CacheText::generator))]
fn join(
    alloc: Global,
    strings: &Sealed<'_>,
    names: &Names<'_>,
    entries: &[NumberedEntry<'_>],
    numbers: &[u32],
) -> Result<Vec<u8>, NoMemory>
    requires entries { length entries.now ≤ ENTRIES_MAX }
    requires names { length names.now ≤ ENTRIES_MAX }
    requires strings { length (shared_table strings.now.texts) < STRINGS_LIMIT }
    requires own { All (HasNumbers strings.now.texts) entries.now }
    requires among { AreAmong strings.now.texts names.now }
    requires numbers { numbers.now ≡ map (number_of strings.now.texts) names.now }
    ensures { IfOk result (λ bytes. bytes.items ≡ joined strings.now names.now (map (λ e. e.entry.now) entries.now)) }
{
    let bytes = strings.bytes();
    let end = HEADER_SIZE + ENTRY_SIZE * entries.len() + bytes.len();
    let padding = (4 - end % 4) % 4;
    let extension = end + padding;
    let front = extension + DIRECTORY_SIZE + 2 * SECTION_SIZE;
    let mut out = Vec::with_capacity(alloc, front + 4 * numbers.len() + GENERATOR.len())?;
    put_header(
        &mut out,
        entries.len() as u32,
        bytes.len() as u32,
        extension as u32,
    )?;
    put_entries(&mut out, strings, names, entries)?;
    out.extend_from_slice(bytes)?;
    put_zeros(&mut out, padding)?;
    put_directory(&mut out, extension as u32, numbers.len() as u32)?;
    put_offsets(&mut out, strings, numbers)?;
    out.extend_from_slice(GENERATOR)?;
    Ok(out)
}

fn put_entries(
    out: &mut Vec<u8>,
    strings: &Sealed<'_>,
    names: &Names<'_>,
    entries: &[NumberedEntry<'_>],
) -> Result<(), NoMemory>
    requires names { length names.now ≤ ENTRIES_MAX }
    requires own { All (HasNumbers strings.now.texts) entries.now }
    ensures { OnOk result (out.new.items ≡ out.old.items ++ flat_map (λ e. entry_bytes (shared_place strings.now) names.now e.entry.now) entries.now) }
{
    for entry in entries {
        put_entry(out, strings, names, entry)?;
    }
    Ok(())
}

fn put_entry(
    out: &mut Vec<u8>,
    strings: &Sealed<'_>,
    names: &Names<'_>,
    numbered: &NumberedEntry<'_>,
) -> Result<(), NoMemory>
    requires names { length names.now ≤ ENTRIES_MAX }
    requires own { HasNumbers strings.now.texts numbered.now }
    ensures { OnOk result (out.new.items ≡ out.old.items ++ entry_bytes (shared_place strings.now) names.now numbered.now.entry.now) }
{
    let entry = numbered.entry;
    let soname = strings.offset(numbered.soname);
    let path = strings.offset(numbered.path);
    let fields = fields_of(flags(entry.abi), soname, path, hwcap(names, entry));
    out.extend_from_slice(&fields)?;
    Ok(())
}

// The fields of an entry, with an unused number before the hwcap.
fn fields_of(flags: u32, soname: u32, path: u32, hwcap: u64) -> [u8; ENTRY_SIZE]
    ensures { result ≡ little_bytes 4 flags ++ little_bytes 4 soname ++ little_bytes 4 path ++ little_bytes 4 0 ++ little_bytes 8 hwcap }
{
    let mut bytes = [0; ENTRY_SIZE];
    LittleEndian::write_u32_into(&[flags, soname, path, 0], &mut bytes[..16]);
    LittleEndian::write_u64(&mut bytes[16..], hwcap);
    bytes
}

fn flags(abi: Abi) -> u32
    ensures { result ≡ flags_of abi }
{
    abi.flags() as u32
}

// The index of an entry's hwcaps name with the `NAMED` bit set, or 0.
fn hwcap(names: &Names<'_>, entry: &Entry) -> u64
    requires { length names.now ≤ ENTRIES_MAX }
    ensures { result ≡ hwcap_of names.now entry.now.cap }
{
    match &entry.cap {
        Some(cap) => NAMED + names.index(cap.as_bytes()) as u64,
        None => 0,
    }
}

// Writes the offsets of the strings with these indexes.
fn put_offsets(out: &mut Vec<u8>, strings: &Sealed<'_>, numbers: &[u32]) -> Result<(), NoMemory>
    requires { All (λ number. number < length strings.now.texts) numbers.now }
    ensures { OnOk result (out.new.items ≡ out.old.items ++ flat_map (offset_bytes strings.now) numbers.now) }
{
    for number in numbers {
        put_offset(out, strings, *number)?;
    }
    Ok(())
}

fn put_offset(out: &mut Vec<u8>, strings: &Sealed<'_>, number: u32) -> Result<(), NoMemory>
    requires { number < length strings.now.texts }
    ensures { OnOk result (out.new.items ≡ out.old.items ++ offset_bytes strings.now number) }
{
    put_u32(out, strings.offset(number))
}

#[tactic(auto, unfolding(crate::specs::CacheText::header))]
fn put_header(out: &mut Vec<u8>, count: u32, strings: u32, extension: u32) -> Result<(), NoMemory>
    ensures { OnOk result (out.new.items ≡ out.old.items ++ header count strings extension) }
{
    out.extend_from_slice(MAGIC)?;
    put_u32(out, count)?;
    put_u32(out, strings)?;
    out.extend_from_slice(&[LITTLE_ENDIAN, 0, 0, 0])?;
    put_u32(out, extension)?;

    // Three unused numbers.
    put_zeros(out, 12)
}

fn section_count(names: u32) -> u32
    ensures { result ≡ section_count names }
{
    if names == 0 { 1 } else { 2 }
}

// Writes the directory with its sections.
#[tactic(auto, unfolding(crate::specs::CacheText::directory, crate::specs::CacheText::generator))]
fn put_directory(out: &mut Vec<u8>, place: u32, names: u32) -> Result<(), NoMemory>
    requires names { names ≤ ENTRIES_MAX }
    requires place { place < 2 * STRINGS_LIMIT }
    ensures { OnOk result (out.new.items ≡ out.old.items ++ directory place names) }
{
    let sections = section_count(names);
    let names_start = place + DIRECTORY_SIZE as u32 + SECTION_SIZE as u32 * sections;
    put_u32(out, EXTENSION_MAGIC)?;
    put_u32(out, sections)?;
    put_section(
        out,
        GENERATOR_TAG,
        names_start + 4 * names,
        GENERATOR.len() as u32,
    )?;
    if names > 0 {
        put_section(out, NAMES_TAG, names_start, 4 * names)?;
    }
    Ok(())
}

fn put_section(out: &mut Vec<u8>, tag: u32, offset: u32, size: u32) -> Result<(), NoMemory>
    ensures { OnOk result (out.new.items ≡ out.old.items ++ section tag offset size) }
{
    put_u32(out, tag)?;

    // Unused flags.
    put_u32(out, 0)?;
    put_u32(out, offset)?;
    put_u32(out, size)
}

fn put_zeros(out: &mut Vec<u8>, count: usize) -> Result<(), NoMemory>
    requires { count < 16 }
    ensures { OnOk result (out.new.items ≡ out.old.items ++ replicate count 0) }
{
    out.resize(out.len() + count, 0)?;
    Ok(())
}

fn put_u32(out: &mut Vec<u8>, number: u32) -> Result<(), NoMemory>
    ensures { OnOk result (out.new.items ≡ out.old.items ++ little_bytes 4 number) }
{
    out.extend_from_slice(&number.to_le_bytes())?;
    Ok(())
}
