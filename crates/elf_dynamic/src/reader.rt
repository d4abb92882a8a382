//! Reads the files of a store.
ghost use Rattle.std.specs.Prelude.{◌≡◌, ◌+◌, ◌*◌, Ok, Err, IfOk, IsErrOf};
ghost use Rattle.elf_headers.specs.Layout.{word_size};
ghost use Rattle.lib_types.specs.Ranges.{IsInRange};
ghost use Rattle.elf_headers.specs.Reading.{IsHeadOf, OfContent, OfKnown, OnlyReads, ReadsFile};
ghost use Rattle.elf_dynamic.specs.Analysis as analyses;
ghost use Rattle.elf_dynamic.specs.Faults.{IfBad, HasName, object_ending, analyse_ending};
ghost use Rattle.elf_dynamic.specs.Kept.{kept_object, kept_object_of, IsKeptInFile};
ghost use Rattle.elf_dynamic.specs.Memory.{SectionTakesMemory, ObjectTakesMemory, AnalysisTakesMemory};
ghost use Rattle.elf_dynamic.specs.Object as objects;
ghost use Rattle.elf_dynamic.specs.Sections.{sections_in};
ghost use Rattle.elf_dynamic.specs.Taken.{TakesBy, most_known, section_reading, readable_section};

use crate::gather::Keep;
use crate::kinds::{Dynamic, Object};
use crate::section::read_dynamic;
use crate::{AnalyseFault, ElfFile, ObjectFault};
use elf_headers::head;
use elf_headers::kinds::Head;
use lib_types::{Analysis, Defect, ET_EXEC};
use std::alloc::Global;
use tree_face::Store;

// Reads the dynamic section of the open file, if it has one. `keep` says which texts are kept.
fn read_begun<S: Store>(
    store: &mut S,
    head: Head,
    alloc: Global,
    keep: Keep,
) -> Result<Option<Dynamic>, ObjectFault>
    requires head { IsHeadOf (S.state store.old) head }
    ensures reads { OnlyReads (object_ending result) (S.state store.old) (S.state store.new) }
    ensures taken { TakesBy
        (λ bytes. 448 * head.phnum + section_reading (word_size head.wide) bytes (readable_section (word_size head.wide) bytes))
        (S.state store.old) (S.state store.new) }
    ensures dynamic { IfOk result (IsKeptInFile keep (S.state store.old) (λ bytes. sections_in (word_size head.wide) bytes)) }
    ensures bad { IfBad result (λ d. OfKnown (S.state store.old) (λ bytes. sections_in (word_size head.wide) bytes ≡ Err d)) }
    ensures range { IfBad result IsInRange }
    ensures no_memory { IsErrOf result ObjectFault.NoMemory → OfKnown (S.state store.old) (λ bytes. SectionTakesMemory (sections_in (word_size head.wide) bytes)) }
{
    let mut file = ElfFile::new(store, head);
    read_dynamic(&mut file, alloc, keep)
}

// Opens the file of a key and reads its object. `keep` says which texts are kept.
fn read<S: Store>(
    alloc: Global,
    keep: Keep,
    store: &mut S,
    key: &[u8],
) -> Result<Object, ObjectFault>
    ensures object { IfOk result (λ o. OfContent (S.state store.old).held key.now (λ bytes.
        kept_object_of keep (objects.object bytes) ≡ Ok (kept_object keep o))) }
    ensures defect { IfBad result (λ d. OfContent (S.state store.old).held key.now (λ bytes. objects.object bytes ≡ Err d)) }
    ensures name { IfOk result HasName }
    ensures range { IfBad result IsInRange }
    ensures no_memory { IsErrOf result ObjectFault.NoMemory → OfContent (S.state store.old).held key.now (λ bytes. ObjectTakesMemory (objects.object bytes)) }
    ensures reads { ReadsFile key.now (most_known (S.state store.old).held key.now) (object_ending result) (S.state store.old) (S.state store.new) }
{
    let head = match head(store, key) {
        Ok(head) => head,
        Err(fault) => return Err(ObjectFault::from(fault)),
    };
    match read_begun(store, head, alloc, keep) {
        Ok(dynamic) => Ok(Object {
            abi: head.abi,
            etype: head.etype,
            dynamic,
        }),
        Err(fault) => Err(fault),
    }
}

/// Opens the file of a key and reads its object, in windows of at most 1024 bytes.
pub fn object<S: Store>(alloc: Global, store: &mut S, key: &[u8]) -> Result<Object, ObjectFault>
    ensures object { IfOk result (λ o. OfContent (S.state store.old).held key.now (λ bytes. objects.object bytes ≡ Ok o)) }
    ensures defect { IfBad result (λ d. OfContent (S.state store.old).held key.now (λ bytes. objects.object bytes ≡ Err d)) }
    ensures name { IfOk result HasName }
    ensures range { IfBad result IsInRange }
    ensures no_memory { IsErrOf result ObjectFault.NoMemory → OfContent (S.state store.old).held key.now (λ bytes. ObjectTakesMemory (objects.object bytes)) }
    ensures reads { ReadsFile key.now (most_known (S.state store.old).held key.now) (object_ending result) (S.state store.old) (S.state store.new) }
{
    read(alloc, Keep::All, store, key)
}

// The analysis of an object.
fn analysis_of(object: Object) -> Analysis
    ensures same { result ≡ analyses.library_of object.abi object.etype object.dynamic }
    ensures name { HasName object → analyses.HasName result }
    ensures range { analyses.IsDefectInRange result }
{
    let Object {
        abi,
        etype,
        dynamic,
    } = object;
    let Some(Dynamic { soname, .. }) = dynamic else {
        return Analysis::Not(Defect::NoDynamic);
    };
    if etype == ET_EXEC {
        return Analysis::Not(Defect::NotShared {
            etype: u64::from(etype),
        });
    }
    Analysis::Lib { abi, soname }
}

/// Opens the file of a key and reads its analysis: what the file is for the cache.
pub fn analyse<S: Store>(alloc: Global, store: &mut S, key: &[u8]) -> Result<Analysis, AnalyseFault>
    ensures analysis { IfOk result (λ a. OfContent (S.state store.old).held key.now (λ bytes. analyses.analysis bytes ≡ a)) }
    ensures name { IfOk result analyses.HasName }
    ensures range { IfOk result analyses.IsDefectInRange }
    ensures no_memory { IsErrOf result AnalyseFault.NoMemory → OfContent (S.state store.old).held key.now (λ bytes. AnalysisTakesMemory (analyses.analysis bytes)) }
    ensures reads { ReadsFile key.now (most_known (S.state store.old).held key.now) (analyse_ending result) (S.state store.old) (S.state store.new) }
{
    match read(alloc, Keep::Soname, store, key) {
        Ok(object) => Ok(analysis_of(object)),
        Err(ObjectFault::Bad(defect)) => Ok(Analysis::Not(defect)),
        Err(ObjectFault::StoreFault) => Err(AnalyseFault::StoreFault),
        Err(ObjectFault::NoMemory) => Err(AnalyseFault::NoMemory),
    }
}
