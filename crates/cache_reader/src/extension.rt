//! Reads the extension directory.
ghost use Rattle.std.specs.Prelude.{◌≡◌, ◌+◌, ◌*◌, ◌/◌, ◌<◌, ◌≤◌, ◌^◌, true, length, IfOk, IfErr, Some, None, if◌then◌else◌};
ghost use Rattle.std.specs.List.{list_all};
ghost use Rattle.std.specs.Option.{option_map_or};
ghost use Rattle.lib_types.specs.Bytes.{field};
ghost use Rattle.cache_reader.specs.Cache.{section_count, section_at, sections_at, with_tag, is_inside, is_ended, numbers_in, is_no_directory, has_bad_offsets, is_bad_directory, name_offsets, first_defect, extension_sentences};
ghost use Rattle.cache_reader.specs.Checks.{EndsAt, HasSections, sections_in, AreSectionsOf};

use crate::CacheDefect;
use crate::check::extension;
use cache_layout::{
    DIRECTORY_SIZE, EXTENSION_MAGIC, GENERATOR_TAG, NAMES_TAG, SECTION_SIZE, u32_at,
};

/// A section: its tag, and its byte range in the file.
#[derive(Clone, Copy)]
pub struct Section {
    pub tag: u32,
    pub offset: u32,
    pub size: u32,
}

/// The sections with a known tag. The first section of each tag counts.
#[derive(Clone, Copy)]
pub struct Sections {
    pub names: Option<Section>,
    pub generator: Option<Section>,
}

// Whether the directory at this offset is missing or incomplete.
fn is_no_directory(bytes: &[u8], at: usize) -> bool
    requires { at < 2 ^ 32 }
    ensures { result ≡ is_no_directory bytes.now at }
{
    if at % 4 != 0 || bytes.len() < at + DIRECTORY_SIZE {
        return true;
    }
    if u32_at(&bytes[at..], 0) != EXTENSION_MAGIC {
        return true;
    }
    let count = section_count(bytes, at);
    bytes.len() < at + DIRECTORY_SIZE + SECTION_SIZE * count
}

fn section_count(bytes: &[u8], at: usize) -> usize
    requires { at + 8 ≤ length bytes.now }
    ensures count { result ≡ section_count bytes.now at }
    ensures small { result < 2 ^ 32 }
{
    u32_at(&bytes[at..], 4) as usize
}

#[tactic(auto, unfolding(crate::specs::Cache::section_at))]
fn section_at(bytes: &[u8], at: usize, index: usize) -> Section
    requires sections { HasSections bytes.now at }
    requires index { index < section_count bytes.now at }
    ensures { result ≡ section_at bytes.now at index }
{
    let here = &bytes[at + DIRECTORY_SIZE + SECTION_SIZE * index..];
    Section {
        tag: u32_at(here, 0),
        offset: u32_at(here, 8),
        size: u32_at(here, 12),
    }
}

// The first section with this tag.
#[tactic(auto, using(crate::proofs::Finding::passed_over, crate::proofs::Finding::found, crate::proofs::Finding::not_found, crate::proofs::Finding::to_find))]
fn with_tag(bytes: &[u8], at: usize, tag: u32) -> Option<Section>
    requires { HasSections bytes.now at }
    ensures { result ≡ with_tag tag (sections_at bytes.now at) }
{
    let count = section_count(bytes, at);
    for index in 0..count {
        let section = section_at(bytes, at, index);
        if section.tag == tag {
            return Some(section);
        }
    }
    None
}

fn is_inside(bytes: &[u8], section: Section) -> bool
    ensures { result ≡ is_inside bytes.now section }
{
    section.offset as usize + section.size as usize <= bytes.len()
}

// Whether all sections are inside the file.
#[tactic(auto, using(crate::proofs::Finding::holds, crate::proofs::Finding::fails, crate::proofs::Finding::all_hold, crate::proofs::Finding::to_hold))]
fn are_inside(bytes: &[u8], at: usize) -> bool
    requires { HasSections bytes.now at }
    ensures { result ≡ list_all (is_inside bytes.now) (sections_at bytes.now at) }
{
    let count = section_count(bytes, at);
    for index in 0..count {
        if !is_inside(bytes, section_at(bytes, at, index)) {
            return false;
        }
    }
    true
}

/// The number with this index in a section.
pub fn number_in(bytes: &[u8], section: Section, index: usize) -> usize
    requires section { is_inside bytes.now section ≡ true }
    requires index { 4 * index + 4 ≤ section.size }
    ensures { result ≡ field bytes.now (section.offset + 4 * index) 4 }
{
    u32_at(bytes, section.offset as usize + 4 * index) as usize
}

// Whether the texts at all offsets of a section are terminated in the file.
#[tactic(auto, using(crate::proofs::Finding::holds, crate::proofs::Finding::fails, crate::proofs::Finding::all_hold, crate::proofs::Finding::to_hold))]
fn are_ended(bytes: &[u8], section: Section, end: usize) -> bool
    requires section { is_inside bytes.now section ≡ true }
    requires end { EndsAt bytes.now end }
    ensures { result ≡ list_all (is_ended bytes.now) (numbers_in bytes.now section) }
{
    let count = section.size as usize / 4;
    for index in 0..count {
        if number_in(bytes, section, index) >= end {
            return false;
        }
    }
    true
}

fn has_bad_offsets(bytes: &[u8], section: Section, end: usize) -> bool
    requires section { is_inside bytes.now section ≡ true }
    requires end { EndsAt bytes.now end }
    ensures { result ≡ has_bad_offsets bytes.now section }
{
    section.offset % 4 != 0 || section.size % 4 != 0 || !are_ended(bytes, section, end)
}

fn sections_at(bytes: &[u8], at: usize, end: usize) -> Option<Sections>
    requires at { at < 2 ^ 32 }
    requires end { EndsAt bytes.now end }
    ensures { result ≡ (if is_bad_directory bytes.now at then None else Some (sections_in bytes.now at)) }
{
    if is_no_directory(bytes, at) || !are_inside(bytes, at) {
        return None;
    }
    let names = with_tag(bytes, at, NAMES_TAG);
    if let Some(section) = names {
        if has_bad_offsets(bytes, section, end) {
            return None;
        }
    }
    Some(Sections {
        names,
        generator: with_tag(bytes, at, GENERATOR_TAG),
    })
}

/// The sections of a file. Fails if its extension has a defect.
pub fn read_sections(bytes: &[u8], end: usize) -> Result<Sections, CacheDefect>
    requires header { 48 ≤ length bytes.now }
    requires end { EndsAt bytes.now end }
    ensures accepted { IfOk result (λ _. first_defect (extension_sentences bytes.now) ≡ None) }
    ensures sections { IfOk result (AreSectionsOf bytes.now) }
    ensures defect { IfErr result (λ d. first_defect (extension_sentences bytes.now) ≡ Some d) }
{
    let at = extension(bytes);
    if at == 0 {
        return Ok(Sections {
            names: None,
            generator: None,
        });
    }
    match sections_at(bytes, at as usize, end) {
        Some(sections) => Ok(sections),
        None => Err(CacheDefect::BadExtension {
            offset: u64::from(at),
        }),
    }
}

/// The number of hwcaps names.
pub fn name_count(names: Option<Section>) -> usize
    ensures { result ≡ option_map_or (λ s. s.size / 4) names 0 }
{
    match names {
        Some(section) => section.size as usize / 4,
        None => 0,
    }
}
