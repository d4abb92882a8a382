//! The dynamic section of a file.
ghost use Rattle.std.specs.Prelude.{◌≡◌, ◌≤◌, ◌+◌, ◌*◌, true, false, nat_lt, Err, IfOk, IfErr, IsErrOf, OnOk, OnErr};
ghost use Rattle.std.specs.Option.{option_map_or};
ghost use Rattle.lib_types.specs.Name.{is_name};
ghost use Rattle.lib_types.specs.declared.analysis.Defect.TheVariants.{BadSoname};
ghost use Rattle.lib_types.specs.Ranges.{IsInRange};
ghost use Rattle.elf_headers.specs.Reading.{OfKnown, TakesAtMost, OnlyReads};
ghost use Rattle.elf_dynamic.specs.Cursor.{IsCursorOf, ReadsOn, IsTableBy, width};
ghost use Rattle.elf_dynamic.specs.Faults.{IfBad, HasSoname, object_ending};
ghost use Rattle.elf_dynamic.specs.Kept.{IsKeptSection, IsKeptInFile};
ghost use Rattle.elf_dynamic.specs.Memory.{IsFaultOf, SectionTakesMemory};
ghost use Rattle.elf_dynamic.specs.Object.{has_nodeflib};
ghost use Rattle.elf_dynamic.specs.Sections.{section_in, sections_in, counting_in, table_by, name_of, has_good_name};
ghost use Rattle.elf_dynamic.specs.declared.text.TheConstants.{TEXT_LIMIT};
ghost use Rattle.elf_dynamic.specs.Taken.{TakesBy, section_reading, readable_section};
ghost use Rattle.elf_dynamic.specs.Texts.{no_texts};
ghost use Rattle.elf_dynamic.specs.Values.{HasTexts};

use crate::gather::{Keep, gather, no_texts};
use crate::kinds::{Dynamic, Place};
use crate::segments::Wanted;
use crate::values::{Values, read_values};
use crate::{ElfFile, ObjectFault};
use elf_headers::kinds::{Head, Segment};
use lib_types::{DF_1_NODEFLIB, Defect, Failed, is_name};
use std::alloc::Global;
use tree_face::Store;

fn has_nodeflib(flags: Option<u64>) -> bool
    ensures { result ≡ option_map_or has_nodeflib flags false }
{
    match flags {
        Some(flags) => flags & DF_1_NODEFLIB != 0,
        None => false,
    }
}

// Sets the soname from the DT_SONAME. An empty DT_SONAME counts as none. Fails if it isn't a name.
fn name(found: &mut Dynamic) -> Result<(), Defect>
    ensures named { OnOk result (found.new ≡ record found.old { soname = name_of found.old.soname }) }
    ensures good { OnOk result (has_good_name found.old.soname ≡ true) }
    ensures name { OnOk result (HasSoname found.new) }
    ensures bad { IfErr result (λ d. d ≡ BadSoname) }
    ensures bad_name { OnErr result (has_good_name found.old.soname ≡ false) }
{
    let Some(text) = &found.soname else {
        return Ok(());
    };
    if text.as_bytes().is_empty() {
        found.soname = None;
        return Ok(());
    }
    if !is_name(text.as_bytes()) {
        return Err(Defect::BadSoname);
    }
    Ok(())
}

// Finds the string table at the address and with the size from the entries.
fn find_strings<S: Store>(
    file: &mut ElfFile<'_, S>,
    strtab: Option<u64>,
    strsz: Option<u64>,
) -> Result<Place, ObjectFault>
    requires cursor { IsCursorOf (S.state file.old.store.now) file.old.cursor }
    ensures same_store { file.new.store.ghost_name ≡ file.old.store.ghost_name }
    ensures reads { ReadsOn (object_ending result) (S.state file.old.store.now) (S.state file.new.store.now) file.old.cursor file.new.cursor }
    ensures taken { TakesAtMost (112 * file.old.cursor.head.phnum) (S.state file.old.store.now) (S.state file.new.store.now) }
    ensures found { IfOk result (IsTableBy (S.state file.old.store.now) file.old.cursor.head strtab strsz) }
    ensures bad { IfBad result (λ d. OfKnown (S.state file.old.store.now) (λ bytes. table_by (width file.old.cursor) bytes strtab strsz ≡ Err d)) }
    ensures range { IfBad result IsInRange }
    ensures no_memory { IsErrOf result ObjectFault.NoMemory → ⊥ }
{
    let Some(address) = strtab else {
        return Err(ObjectFault::Bad(Defect::NoStrtab));
    };
    let Some(size) = strsz else {
        return Err(ObjectFault::Bad(Defect::NoStrtab));
    };
    match file.table_at(address, size)? {
        Some(table) => Ok(table),
        None => Err(ObjectFault::Bad(Defect::OutsideLoad)),
    }
}

// Reads the texts of a section whose entries have some.
fn read_texts<S: Store>(
    file: &mut ElfFile<'_, S>,
    alloc: Global,
    keep: Keep,
    dynamic: Segment,
    values: Values,
    found: &mut Dynamic,
) -> Result<(), ObjectFault>
    requires cursor { IsCursorOf (S.state file.old.store.now) file.old.cursor }
    requires texts { HasTexts (S.state file.old.store.now) file.old.cursor.head dynamic values }
    requires first { found.old ≡ no_texts (option_map_or has_nodeflib values.flags_1 false) }
    ensures same_store { file.new.store.ghost_name ≡ file.old.store.ghost_name }
    ensures reads { OnlyReads (object_ending result) (S.state file.old.store.now) (S.state file.new.store.now) }
    ensures taken { TakesBy
        (λ bytes. 112 * file.old.cursor.head.phnum + 2 * dynamic.filesz + TEXT_LIMIT * counting_in (width file.old.cursor) bytes dynamic)
        (S.state file.old.store.now) (S.state file.new.store.now) }
    ensures section { OnOk result (IsKeptSection keep (S.state file.old.store.now) (λ bytes. section_in (width file.old.cursor) bytes dynamic) found.new) }
    ensures fault { IsFaultOf (S.state file.old.store.now) (λ bytes. section_in (width file.old.cursor) bytes dynamic) result }
{
    let strings = match find_strings(file, values.strtab, values.strsz) {
        Ok(strings) => strings,
        Err(fault) => return Err(fault),
    };
    file.set_strings(strings);
    match gather(file, alloc, keep, dynamic, values, found) {
        Ok(()) => {}
        Err(fault) => return Err(fault),
    }
    match name(found) {
        Ok(()) => Ok(()),
        Err(defect) => Err(ObjectFault::Bad(defect)),
    }
}

// Reads the section in a segment.
fn read_section<S: Store>(
    file: &mut ElfFile<'_, S>,
    alloc: Global,
    keep: Keep,
    dynamic: Segment,
) -> Result<Dynamic, ObjectFault>
    requires cursor { IsCursorOf (S.state file.old.store.now) file.old.cursor }
    requires inside { dynamic.offset + dynamic.filesz ≤ file.old.cursor.head.length }
    ensures same_store { file.new.store.ghost_name ≡ file.old.store.ghost_name }
    ensures reads { OnlyReads (object_ending result) (S.state file.old.store.now) (S.state file.new.store.now) }
    ensures taken { TakesBy
        (λ bytes. 112 * file.old.cursor.head.phnum + 4 * dynamic.filesz + TEXT_LIMIT * counting_in (width file.old.cursor) bytes dynamic)
        (S.state file.old.store.now) (S.state file.new.store.now) }
    ensures section { IfOk result (IsKeptSection keep (S.state file.old.store.now) (λ bytes. section_in (width file.old.cursor) bytes dynamic)) }
    ensures fault { IsFaultOf (S.state file.old.store.now) (λ bytes. section_in (width file.old.cursor) bytes dynamic) result }
{
    let values = read_values(file, dynamic)?;
    let mut found = no_texts(alloc, has_nodeflib(values.flags_1));
    if values.texts == 0 {
        return Ok(found);
    }
    match read_texts(file, alloc, keep, dynamic, values, &mut found) {
        Ok(()) => Ok(found),
        Err(fault) => Err(fault),
    }
}

fn is_outside(head: &Head, s: Segment) -> bool
    ensures outside { result ≡ nat_lt head.now.length (s.offset + s.filesz) }
    ensures inside { result ≡ false → s.offset + s.filesz ≤ head.now.length }
{
    s.offset > head.length || s.filesz > head.length - s.offset
}

/// Reads the dynamic section of a file, if it has one.
pub fn read_dynamic<S: Store>(
    file: &mut ElfFile<'_, S>,
    alloc: Global,
    keep: Keep,
) -> Result<Option<Dynamic>, ObjectFault>
    requires cursor { IsCursorOf (S.state file.old.store.now) file.old.cursor }
    ensures same_store { file.new.store.ghost_name ≡ file.old.store.ghost_name }
    ensures reads { OnlyReads (object_ending result) (S.state file.old.store.now) (S.state file.new.store.now) }
    ensures taken { TakesBy
        (λ bytes. 448 * file.old.cursor.head.phnum + section_reading (width file.old.cursor) bytes (readable_section (width file.old.cursor) bytes))
        (S.state file.old.store.now) (S.state file.new.store.now) }
    ensures dynamic { IfOk result (IsKeptInFile keep (S.state file.old.store.now) (λ bytes. sections_in (width file.old.cursor) bytes)) }
    ensures bad { IfBad result (λ d. OfKnown (S.state file.old.store.now) (λ bytes. sections_in (width file.old.cursor) bytes ≡ Err d)) }
    ensures range { IfBad result IsInRange }
    ensures no_memory { IsErrOf result ObjectFault.NoMemory → OfKnown (S.state file.old.store.now) (λ bytes. SectionTakesMemory (sections_in (width file.old.cursor) bytes)) }
{
    let Some(dynamic) = file.find_segment(Wanted::DynamicSection)? else {
        return Ok(None);
    };
    if is_outside(&file.cursor.head, dynamic) {
        return Err(ObjectFault::Bad(Defect::DynOutside));
    }
    match read_section(file, alloc, keep, dynamic) {
        Ok(dynamic) => Ok(Some(dynamic)),
        Err(fault) => Err(fault),
    }
}
