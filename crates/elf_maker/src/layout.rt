//! The offsets and sizes of the parts of a file.
ghost use Rattle.std.specs.Prelude.{◌≡◌, ◌≤◌, ◌<◌, ◌+◌, ◌*◌, ◌==◌, All, length, map, IfSome};
ghost use Rattle.std.specs.Option.{MatchOption};
ghost use Rattle.lib_types.specs.Abi.{class_of};
ghost use Rattle.elf_headers.specs.Layout.{at_class, word_size};
ghost use Rattle.elf_dynamic.specs.declared.text.TheConstants.{TEXT_LIMIT};
ghost use Rattle.elf_maker.specs.declared.layout.TheConstants.{FILE_MAX};
ghost use Rattle.elf_maker.specs.Texts.{ended_texts, tagged, strings, tagged_if};
ghost use Rattle.elf_maker.specs.Made.{width, base, entry_count, size};
ghost use Rattle.elf_maker.specs.Parts.{IsSizeIfFit, IsShort, AreShort, IsWidth, IsLayoutOf, needed_texts};

use crate::kinds::Spec;
use elf_dynamic::kinds::Dynamic;
use lib_types::{Abi, Text};

/// The maximum size of a generated file in bytes.
pub const FILE_MAX: u64 = 1 << 24;

// The offsets and sizes of the parts of a file.
#[derive(Clone, Copy)]
pub(crate) struct Layout {
    // The size of an address.
    pub w: usize,
    // The offset of the dynamic entries, and their size in bytes.
    pub section: u64,
    pub section_size: u64,
    // The offset of the string table, and its size in bytes.
    pub strings: u64,
    pub strings_size: u64,
}

// The size of an address.
fn width_of(abi: Abi) -> usize
    ensures width { IsWidth result }
    ensures abi { result ≡ word_size (class_of abi == 2) }
{
    if abi.row().class == 2 { 8 } else { 4 }
}

// The address in memory of the byte at this offset.
pub(crate) fn address_of(offset: u64) -> u64
    requires { offset ≤ FILE_MAX }
    ensures { result ≡ offset + base }
{
    offset + 0x1000
}

// The first number in class 1, the second in class 2.
pub(crate) fn at_class(w: usize, narrow: usize, wide: usize) -> usize
    ensures { result ≡ at_class w narrow wide }
{
    if w == 8 { wide } else { narrow }
}

// The size in bytes of the DT_NEEDED texts with their NULs. None if it is more than a file may have.
fn size_of_needed(texts: &[Text]) -> Option<u64>
    requires { All IsShort texts.now }
    ensures size { IsSizeIfFit result (ended_texts (needed_texts texts.now)) }
    ensures small { IfSome result (λ n. n ≤ FILE_MAX) }
{
    let mut size = 0;
    for text in texts {
        size += text.as_bytes().len() as u64 + 1;
        if size > FILE_MAX {
            return None;
        }
    }
    Some(size)
}

// The same for an optional text.
fn size_of_optional(text: &Option<Text>) -> u64
    requires { IfSome text.now IsShort }
    ensures size { result ≡ length (ended_texts (tagged_if 0 text.now)) }
    ensures short { result ≤ TEXT_LIMIT }
{
    match text {
        Some(text) => text.as_bytes().len() as u64 + 1,
        None => 0,
    }
}

// The size in bytes of the string table. None if it is more than a file may have.
#[tactic(auto, using(crate::proofs::Steps::strings_length, crate::proofs::Steps::few_texts))]
fn size_of_strings(dynamic: &Dynamic) -> Option<u64>
    requires { AreShort dynamic.now }
    ensures size { IsSizeIfFit result (strings dynamic.now) }
    ensures small { IfSome result (λ n. n ≤ 2 * FILE_MAX) }
    ensures few { IfSome result (λ n. length dynamic.now.needed < n) }
{
    let needed = size_of_needed(dynamic.needed.as_slice())?;
    let others = size_of_optional(&dynamic.soname)
        + size_of_optional(&dynamic.rpath)
        + size_of_optional(&dynamic.runpath);
    Some(1 + needed + others)
}

// The number of dynamic entries, including the DT_NULL.
#[tactic(auto, using(crate::proofs::Steps::tagged_length))]
fn entry_count(dynamic: &Dynamic) -> u64
    requires { length dynamic.now.needed ≤ 2 * FILE_MAX }
    ensures count { result ≡ entry_count dynamic.now }
    ensures few { result ≤ 4 * FILE_MAX }
{
    let texts = u64::from(dynamic.soname.is_some())
        + u64::from(dynamic.rpath.is_some())
        + u64::from(dynamic.runpath.is_some());
    dynamic.needed.len() as u64 + texts + u64::from(dynamic.nodeflib) + 3
}

// The offsets and sizes of the parts. None if the file would be too long.
#[tactic(auto, using(crate::proofs::Steps::product))]
pub(crate) fn layout_of(spec: &Spec) -> Option<Layout>
    requires { AreShort spec.now.dynamic }
    ensures { MatchOption result (FILE_MAX < size (width spec.now) spec.now.dynamic) (λ l. IsLayoutOf l spec.now) }
{
    let w = width_of(spec.abi);
    let strings_size = size_of_strings(&spec.dynamic)?;
    let section = at_class(w, 52 + 2 * 32, 64 + 2 * 56) as u64;
    let section_size = entry_count(&spec.dynamic) * (2 * w as u64);
    let strings = section + section_size;
    if strings + strings_size > FILE_MAX {
        return None;
    }
    Some(Layout {
        w,
        section,
        section_size,
        strings,
        strings_size,
    })
}
