//! Writes the dynamic entries.
ghost use Rattle.std.specs.Prelude.{◌≡◌, ◌≤◌, ◌+◌, ◌++◌, ◌∷◌, [], length, OnOk, IfOk};
ghost use Rattle.elf_maker.specs.declared.layout.TheConstants.{FILE_MAX};
ghost use Rattle.elf_maker.specs.Texts.{ended_texts, tagged, tagged_if, strings, text_entries};
ghost use Rattle.elf_maker.specs.Made.{flag_entries, entries};
ghost use Rattle.elf_maker.specs.Parts.{IsWidth, needed_texts, entries_bytes};

use crate::fields::put_fields;
use elf_dynamic::kinds::{Dynamic, DynamicEntry};
use lib_types::{
    DF_1_NODEFLIB, DT_FLAGS_1, DT_NEEDED, DT_NULL, DT_RPATH, DT_RUNPATH, DT_SONAME, DT_STRSZ,
    DT_STRTAB, NoMemory, Text,
};

#[tactic(auto, unfolding(crate::specs::Parts::entries_bytes))]
fn put_entry(out: &mut Vec<u8>, w: usize, entry: DynamicEntry) -> Result<(), NoMemory>
    requires { IsWidth w }
    ensures { OnOk result (out.new.items ≡ out.old.items ++ entries_bytes w (entry ∷ [])) }
{
    put_fields(out, &[(w, entry.tag), (w, entry.value)])
}

// Writes the entries of the DT_NEEDED texts. The first text is at offset `at` of the string table. Returns the offset after the last
// text.
fn put_needed(out: &mut Vec<u8>, w: usize, at: u64, texts: &[Text]) -> Result<u64, NoMemory>
    requires width { IsWidth w }
    requires short { at + length (ended_texts (needed_texts texts.now)) ≤ FILE_MAX }
    ensures put { OnOk result (out.new.items ≡ out.old.items ++ entries_bytes w (text_entries at (needed_texts texts.now))) }
    ensures following { IfOk result (λ n. n ≡ at + length (ended_texts (needed_texts texts.now))) }
{
    let mut next = at;
    for text in texts {
        put_entry(
            out,
            w,
            DynamicEntry {
                tag: DT_NEEDED,
                value: next,
            },
        )?;
        next += text.as_bytes().len() as u64 + 1;
    }
    Ok(next)
}

// The same for an optional text.
#[tactic(auto, unfolding(crate::specs::Parts::entries_bytes, crate::specs::Fields::bytes_of))]
fn put_optional(
    out: &mut Vec<u8>,
    w: usize,
    tag: u64,
    at: u64,
    text: &Option<Text>,
) -> Result<u64, NoMemory>
    requires width { IsWidth w }
    requires short { at + length (ended_texts (tagged_if tag text.now)) ≤ FILE_MAX }
    ensures put { OnOk result (out.new.items ≡ out.old.items ++ entries_bytes w (text_entries at (tagged_if tag text.now))) }
    ensures following { IfOk result (λ n. n ≡ at + length (ended_texts (tagged_if tag text.now))) }
{
    let Some(text) = text else {
        return Ok(at);
    };
    put_entry(out, w, DynamicEntry { tag, value: at })?;
    Ok(at + text.as_bytes().len() as u64 + 1)
}

// Writes the entries of all texts.
#[tactic(auto, using(crate::proofs::Steps::tagged_sizes, crate::proofs::Steps::texts_are))]
fn put_texts(out: &mut Vec<u8>, w: usize, dynamic: &Dynamic) -> Result<(), NoMemory>
    requires width { IsWidth w }
    requires short { 1 + length (ended_texts (tagged dynamic.now)) ≤ FILE_MAX }
    ensures { OnOk result (out.new.items ≡ out.old.items ++ entries_bytes w (text_entries 1 (tagged dynamic.now))) }
{
    let at = put_needed(out, w, 1, dynamic.needed.as_slice())?;
    let at = put_optional(out, w, DT_SONAME, at, &dynamic.soname)?;
    let at = put_optional(out, w, DT_RPATH, at, &dynamic.rpath)?;
    put_optional(out, w, DT_RUNPATH, at, &dynamic.runpath)?;
    Ok(())
}

#[tactic(auto, unfolding(crate::specs::Parts::entries_bytes, crate::specs::Fields::bytes_of))]
fn put_flags(out: &mut Vec<u8>, w: usize, nodeflib: bool) -> Result<(), NoMemory>
    requires { IsWidth w }
    ensures { OnOk result (out.new.items ≡ out.old.items ++ entries_bytes w (flag_entries nodeflib)) }
{
    if nodeflib {
        return put_entry(
            out,
            w,
            DynamicEntry {
                tag: DT_FLAGS_1,
                value: DF_1_NODEFLIB,
            },
        );
    }
    Ok(())
}

// Writes all entries, for a string table at this address with this size in bytes.
#[tactic(auto, using(crate::proofs::Steps::strings_size, crate::proofs::Steps::section_is))]
pub(crate) fn put_section(
    out: &mut Vec<u8>,
    w: usize,
    address: u64,
    size: u64,
    dynamic: &Dynamic,
) -> Result<(), NoMemory>
    requires width { IsWidth w }
    requires size { size ≡ length (strings dynamic.now) }
    requires short { size ≤ FILE_MAX }
    ensures { OnOk result (out.new.items ≡ out.old.items ++ entries_bytes w (entries address dynamic.now)) }
{
    put_texts(out, w, dynamic)?;
    put_flags(out, w, dynamic.nodeflib)?;
    put_entry(
        out,
        w,
        DynamicEntry {
            tag: DT_STRTAB,
            value: address,
        },
    )?;
    put_entry(
        out,
        w,
        DynamicEntry {
            tag: DT_STRSZ,
            value: size,
        },
    )?;
    put_entry(
        out,
        w,
        DynamicEntry {
            tag: DT_NULL,
            value: 0,
        },
    )
}
