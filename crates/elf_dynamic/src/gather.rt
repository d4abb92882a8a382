//! The texts of the entries.
ghost use Rattle.std.specs.Prelude.{◌≡◌, ◌-◌, ◌==◌, false, ◌∷◌, [], ℕ, List, Ok, Err, OnOk, if◌then◌else◌};
ghost use Rattle.elf_headers.specs.Reading.{OfKnown, TakesAtMost};
ghost use Rattle.elf_dynamic.specs.Cursor.{IsCursorOf, ReadsOn, width, strings_of};
ghost use Rattle.elf_dynamic.specs.declared.kinds.DynamicEntry.{DynamicEntry};
ghost use Rattle.elf_dynamic.specs.Faults.{IfBad, IsBadString, object_ending};
ghost use Rattle.elf_dynamic.specs.Kept.{keeps, kept, kept_of};
ghost use Rattle.elf_dynamic.specs.Section.{dynamic_entries};
ghost use Rattle.elf_dynamic.specs.Taken.{TakesBy, most_gathered};
ghost use Rattle.elf_dynamic.specs.declared.text.TheConstants.{TEXT_LIMIT};
ghost use Rattle.elf_dynamic.specs.Texts.{counts, with_text, no_texts, add_one, gathered};
ghost use Rattle.elf_dynamic.specs.Values.{texts_in, HasTexts};

use crate::entries::Entries;
use crate::kinds::{Dynamic, DynamicEntry};
use crate::values::{Values, is_text};
use crate::{ElfFile, ObjectFault};
use elf_headers::kinds::Segment;
use lib_types::{DT_NEEDED, DT_RPATH, DT_RUNPATH, DT_SONAME, Defect, NoMemory, Seq, Text};
use std::alloc::Global;
use tree_face::Store;

/// Which texts of a section are kept.
#[derive(Clone, Copy)]
pub enum Keep {
    All,
    Soname,
}

// Whether the text of an entry with this tag is kept.
fn keeps(keep: Keep, tag: u64) -> bool
    ensures { result ≡ keeps keep tag }
{
    match keep {
        Keep::All => true,
        Keep::Soname => tag == DT_SONAME,
    }
}

/// A section without texts.
pub fn no_texts(alloc: Global, nodeflib: bool) -> Dynamic
    ensures { result ≡ no_texts nodeflib }
{
    Dynamic {
        soname: None,
        needed: Seq::new(alloc),
        rpath: None,
        runpath: None,
        nodeflib,
    }
}

// Whether the text of another entry counts.
fn counts(found: &Dynamic, tag: u64) -> bool
    ensures { result ≡ counts found.now tag }
{
    tag == DT_NEEDED
        || tag == DT_SONAME && found.soname.is_none()
        || tag == DT_RPATH && found.rpath.is_none()
        || tag == DT_RUNPATH && found.runpath.is_none()
}

// Stores the text of an entry that counts.
fn put(found: &mut Dynamic, tag: u64, text: Text) -> Result<(), NoMemory>
    ensures { OnOk result (found.new ≡ with_text tag text found.old) }
{
    if tag == DT_NEEDED {
        found.needed.push(text)?;
    } else if tag == DT_SONAME {
        found.soname = Some(text);
    } else if tag == DT_RPATH {
        found.rpath = Some(text);
    } else {
        found.runpath = Some(text);
    }
    Ok(())
}

// Stores an empty text for an entry that counts but isn't kept, so that later entries of its tag don't count. DT_NEEDED doesn't need
// this.
fn note(alloc: Global, found: &mut Dynamic, tag: u64)
    ensures { (text : List ℕ) → (tag == 14) ≡ false → kept Keep.Soname found.new ≡ kept Keep.Soname (with_text tag text found.old) }
{
    if tag == DT_NEEDED {
        return;
    }
    let empty = Text::from_vec(Vec::new(alloc));
    if tag == DT_RPATH {
        found.rpath = Some(empty);
    } else {
        found.runpath = Some(empty);
    }
}

// Adds the text of another entry.
fn add<S: Store>(
    file: &mut ElfFile<'_, S>,
    alloc: Global,
    keep: Keep,
    found: &mut Dynamic,
    entry: DynamicEntry,
) -> Result<(), ObjectFault>
    requires cursor { IsCursorOf (S.state file.old.store.now) file.old.cursor }
    ensures same_store { file.new.store.ghost_name ≡ file.old.store.ghost_name }
    ensures reads { ReadsOn (object_ending result) (S.state file.old.store.now) (S.state file.new.store.now) file.old.cursor file.new.cursor }
    ensures section { file.new.cursor.section ≡ file.old.cursor.section }
    ensures taken { TakesAtMost (if counts found.old entry.tag then TEXT_LIMIT else 0) (S.state file.old.store.now) (S.state file.new.store.now) }
    ensures added { OnOk result (OfKnown (S.state file.old.store.now) (λ bytes.
        kept_of keep (add_one (strings_of file.old.cursor bytes) found.old entry) ≡ Ok (kept keep found.new))) }
    ensures bad { IfBad result (λ d. OfKnown (S.state file.old.store.now) (λ bytes. add_one (strings_of file.old.cursor bytes) found.old entry ≡ Err d)) }
    ensures range { IfBad result IsBadString }
{
    if !counts(found, entry.tag) {
        return Ok(());
    }
    if !keeps(keep, entry.tag) {
        if !file.has_text_at(entry.value)? {
            return Err(ObjectFault::Bad(Defect::BadString { tag: entry.tag }));
        }
        note(alloc, found, entry.tag);
        return Ok(());
    }
    let Some(text) = file.text_at(alloc, entry.value)? else {
        return Err(ObjectFault::Bad(Defect::BadString { tag: entry.tag }));
    };
    put(found, entry.tag, text)?;
    Ok(())
}

// The number of entries with a text that are left after this entry.
fn left_after(left: u64, entry: DynamicEntry) -> u64
    ensures { result ≡ left - texts_in (entry ∷ []) }
{
    if is_text(entry.tag) {
        left.saturating_sub(1)
    } else {
        left
    }
}

/// Adds the texts of a segment's entries, up to the first entry that counts but has no text. Stops after the last entry with a text.
/// In most sections these entries come first, so the rest isn't read.
pub fn gather<S: Store>(
    file: &mut ElfFile<'_, S>,
    alloc: Global,
    keep: Keep,
    dynamic: Segment,
    values: Values,
    found: &mut Dynamic,
) -> Result<(), ObjectFault>
    requires cursor { IsCursorOf (S.state file.old.store.now) file.old.cursor }
    requires texts { HasTexts (S.state file.old.store.now) file.old.cursor.head dynamic values }
    ensures same_store { file.new.store.ghost_name ≡ file.old.store.ghost_name }
    ensures reads { ReadsOn (object_ending result) (S.state file.old.store.now) (S.state file.new.store.now) file.old.cursor file.new.cursor }
    ensures taken { TakesBy
        (λ bytes. most_gathered (strings_of file.old.cursor bytes) found.old (width file.old.cursor) bytes dynamic)
        (S.state file.old.store.now) (S.state file.new.store.now) }
    ensures gathered { OnOk result (OfKnown (S.state file.old.store.now) (λ bytes.
        kept_of keep (gathered (strings_of file.old.cursor bytes) found.old (dynamic_entries (width file.old.cursor) bytes dynamic))
        ≡ Ok (kept keep found.new))) }
    ensures bad { IfBad result (λ d. OfKnown (S.state file.old.store.now) (λ bytes.
        gathered (strings_of file.old.cursor bytes) found.old (dynamic_entries (width file.old.cursor) bytes dynamic) ≡ Err d)) }
    ensures range { IfBad result IsBadString }
{
    let mut entries = Entries::new(file.cursor.head.wide, dynamic);
    let mut left = values.texts;
    while let Some(entry) = entries.next(file)? {
        match add(file, alloc, keep, found, entry) {
            Ok(()) => {}
            Err(fault) => return Err(fault),
        }
        left = left_after(left, entry);
        if left == 0 {
            return Ok(());
        }
    }
    Ok(())
}
