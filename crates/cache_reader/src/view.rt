//! An accepted cache file that is read in place.
ghost use Rattle.std.specs.Prelude.{◌≡◌, ◌<◌, ◌≤◌, ◌^◌, true, None, Some, length, option_map, IfOk, IfErr, IfSome};
ghost use Rattle.std.specs.List.{slice_get, slice_index};
ghost use Rattle.cache_layout.specs.Layout.{is_named, name_index};
ghost use Rattle.cache_reader.specs.Checks.{AreSectionsOf, IsSound};
ghost use Rattle.cache_reader.specs.Cache.{defect, read, nlibs, names_section, name_offsets, is_inside, cap_of, entry_at};
ghost use Rattle.cache_reader.specs.Cache as spec;
ghost use Rattle.cache_reader.specs.Views.{entry_of};

use crate::CacheDefect;
use crate::check::{
    check_entries, check_header, check_hwcaps, check_magic, end_of_texts, from_entry, is_named,
    name_index, nlibs,
};
use crate::extension::{Section, Sections, name_count, number_in, read_sections};
use cache_layout::{u32_at, u64_at};
use lib_types::before_byte;
use std::marker::Model;

/// A cache without a defect. Contracts see the bytes of the file.
#[derive(Drop)]
pub struct CacheView<'a> {
    bytes: &'a [u8],
    count: usize,
    names: Option<Section>,
    generator: Option<&'a [u8]>,
}

/// The fields of an entry. The texts are slices of the file.
#[derive(Clone, Copy)]
pub struct EntryView<'a> {
    pub flags: i32,
    pub name: &'a [u8],
    pub path: &'a [u8],
    pub hwcap: u64,
    /// The hwcaps name, if the hwcap has the index of one.
    pub cap: Option<&'a [u8]>,
}

impl<'a> Model for CacheView<'a> {
    ghost use Rattle.std.specs.Prelude.{ℕ, List};
    ghost use Rattle.cache_reader.specs.Views.{IsView};

    ghost Value = { List ℕ };

    ghost view = { λ v. v.bytes.now };

    ghost invariant = { λ v. IsView v.bytes.now v.count v.names v.generator };
}

// The text at an offset.
fn text_at(bytes: &[u8], at: usize) -> &[u8]
    requires { at ≤ length bytes.now }
    ensures { result.now ≡ spec.text_at bytes.now at }
{
    before_byte(0, &bytes[at..])
}

impl<'a> CacheView<'a> {
    /// The cache in these bytes, or its first defect.
    pub fn parse(bytes: &'a [u8]) -> Result<CacheView<'a>, CacheDefect>
        ensures view { IfOk result (λ view. view ≡ bytes.now) }
        ensures accepted { IfOk result (λ _. defect bytes.now ≡ None) }
        ensures defect { IfErr result (λ d. defect bytes.now ≡ Some d) }
    {
        let sections = check(bytes)?;
        Ok(CacheView {
            bytes,
            count: nlibs(bytes) as usize,
            names: sections.names,
            generator: generator(bytes, sections),
        })
    }

    /// The number of entries. It fits in 32 bits.
    pub fn len(&self) -> usize
        ensures value { result ≡ length (read self.now) }
        ensures few { result < 2 ^ 32 }
    {
        self.count
    }

    /// The entry with this index. None after the last entry.
    pub fn entry(&self, i: usize) -> Option<EntryView<'a>>
        ensures { option_map entry_of result ≡ slice_get (read self.now) i }
    {
        if i >= self.count {
            return None;
        }
        Some(self.entry_within(i))
    }

    /// The entry with this index, which must be an index of the file.
    pub fn entry_within(&self, i: usize) -> EntryView<'a>
        requires { i < length (read self.now) }
        ensures { entry_of result ≡ entry_at self.now i }
    {
        entry_view(self.bytes, self.names, i)
    }

    /// The text of the generator section, if there is one. It may contain NULs.
    pub fn generator(&self) -> Option<&'a [u8]>
        ensures { option_map (λ t. t.now) result ≡ spec.generator self.now }
    {
        self.generator
    }
}

// Checks for all defects, in order.
fn check(bytes: &[u8]) -> Result<Sections, CacheDefect>
    ensures accepted { IfOk result (λ _. defect bytes.now ≡ None) }
    ensures sections { IfOk result (AreSectionsOf bytes.now) }
    ensures defect { IfErr result (λ d. defect bytes.now ≡ Some d) }
{
    check_magic(bytes)?;
    check_header(bytes)?;
    let end = end_of_texts(bytes);
    check_entries(bytes, end)?;
    let sections = read_sections(bytes, end)?;
    check_hwcaps(bytes, name_count(sections.names))?;
    Ok(sections)
}

// The bytes of a section.
fn bytes_in(bytes: &[u8], section: Section) -> &[u8]
    requires { is_inside bytes.now section ≡ true }
    ensures { result.now ≡ spec.bytes_in bytes.now section }
{
    let start = section.offset as usize;
    &bytes[start..start + section.size as usize]
}

fn generator<'a>(bytes: &'a [u8], sections: Sections) -> Option<&'a [u8]>
    requires sound { IsSound bytes.now }
    requires sections { AreSectionsOf bytes.now sections }
    ensures { option_map (λ t. t.now) result ≡ spec.generator bytes.now }
{
    Some(bytes_in(bytes, sections.generator?))
}

// The offset of the hwcaps name with this index.
fn name_offset(bytes: &[u8], names: Section, index: usize) -> usize
    requires sound { IsSound bytes.now }
    requires names { names_section bytes.now ≡ Some names }
    requires index { index < length (name_offsets bytes.now) }
    ensures value { result ≡ slice_index (name_offsets bytes.now) index }
    ensures within { result ≤ length bytes.now }
{
    number_in(bytes, names, index)
}

// The hwcaps name of a hwcap, if it has the index of one.
fn cap<'a>(bytes: &'a [u8], names: Option<Section>, hwcap: u64) -> Option<&'a [u8]>
    requires sound { IsSound bytes.now }
    requires names { names ≡ names_section bytes.now }
    requires hwcap { is_named hwcap ≡ true → name_index hwcap < length (name_offsets bytes.now) }
    ensures { option_map (λ t. t.now) result ≡ cap_of bytes.now hwcap }
{
    if !is_named(hwcap) {
        return None;
    }
    Some(text_at(bytes, name_offset(bytes, names?, name_index(hwcap))))
}

// The entry with this index.
#[tactic(auto, unfolding(crate::specs::Cache::entry_at))]
fn entry_view<'a>(bytes: &'a [u8], names: Option<Section>, index: usize) -> EntryView<'a>
    requires sound { IsSound bytes.now }
    requires names { names ≡ names_section bytes.now }
    requires index { index < nlibs bytes.now }
    ensures { entry_of result ≡ entry_at bytes.now index }
{
    let entry = from_entry(bytes, index);
    let hwcap = u64_at(entry, 16);
    EntryView {
        flags: u32_at(entry, 0).cast_signed(),
        name: text_at(bytes, u32_at(entry, 4) as usize),
        path: text_at(bytes, u32_at(entry, 8) as usize),
        hwcap,
        cap: cap(bytes, names, hwcap),
    }
}
