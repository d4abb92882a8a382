//! Reads the headers of a file in a store.
ghost use Rattle.std.specs.Prelude.{◌≡◌, ◌⊎◌, ◌<◌, [], Some, Ok, Err, IfOk};
ghost use Rattle.tree_face.specs.Store.{Lacks};
ghost use Rattle.tree_face.specs.StoreUse.{ReadsFiles};
ghost use Rattle.elf_headers.specs.Faults.{IfBad, head_ending};
ghost use Rattle.elf_headers.specs.Header as spec;
ghost use Rattle.elf_headers.specs.Layout.{word_size};
ghost use Rattle.elf_headers.specs.Layout as layout;
ghost use Rattle.lib_types.specs.Ranges.{IsInRange};
ghost use Rattle.elf_headers.specs.Reading.{known_content, OfContent, OfKnown, TakesAtMost, reading_ending, ReadsFile, KeepsFile, OnlyReads, IsHeadOf};

use crate::HeadFault;
use crate::class::{Class, head_of};
use crate::kinds::{Head, Segment};
use lib_types::Failed;
use tree_face::Store;

/// Opens the file of a key and reads its header: at most 64 bytes.
pub fn head<S: Store>(store: &mut S, key: &[u8]) -> Result<Head, HeadFault>
    ensures head { IfOk result (λ h. OfContent (S.state store.old).held key.now (λ bytes. spec.head bytes ≡ Ok h)) }
    ensures begun_head { IfOk result (IsHeadOf (S.state store.new)) }
    ensures content { IfOk result (λ _. OfContent (S.state store.old).held key.now (λ bytes. known_content (S.state store.new) ≡ Some bytes)) }
    ensures defect { IfBad result (λ d. OfContent (S.state store.old).held key.now (λ bytes. spec.head bytes ≡ Err d)) }
    ensures range { IfBad result IsInRange }
    ensures reads { ReadsFile key.now (Some 64) (head_ending result) (S.state store.old) (S.state store.new) }
    ensures not_held { Lacks (S.state store.old).held key.now → (S.state store.new).taken ≡ (S.state store.old).taken }
{
    let size = store.begin(key)?;
    let mut front = [0u8; 64];
    let count = store.read_at(0, &mut front)?;
    match head_of(&front[..count], size) {
        Ok(head) => Ok(head),
        Err(defect) => Err(HeadFault::Bad(defect)),
    }
}

/// Reads the program header with this index: at most 56 bytes.
#[tactic(auto, using(crate::proofs::Endings::reads_nothing))]
pub fn segment<S: Store>(store: &mut S, head: &Head, index: u16) -> Result<Segment, Failed>
    requires head { IsHeadOf (S.state store.old) head.now }
    requires index { index < head.now.phnum }
    ensures segment { IfOk result (λ s. OfKnown (S.state store.old) (λ bytes. s ≡ layout.segment (word_size head.now.wide) bytes index)) }
    ensures begun_head { IsHeadOf (S.state store.new) head.now }
    ensures keeps { KeepsFile (S.state store.old) (S.state store.new) }
    ensures reads { ReadsFiles ⊥ (Some []) (Some 56) (reading_ending result) (S.state store.old) (S.state store.new) }
{
    if head.wide {
        segment_of_class::<S, 8>(store, head, index)
    } else {
        segment_of_class::<S, 4>(store, head, index)
    }
}

fn segment_of_class<S: Store, const W: usize>(
    store: &mut S,
    head: &Head,
    index: u16,
) -> Result<Segment, Failed>
    requires class { (W ≡ 4) ⊎ (W ≡ 8) }
    requires width { word_size head.now.wide ≡ W }
    requires head { IsHeadOf (S.state store.old) head.now }
    requires index { index < head.now.phnum }
    ensures segment { IfOk result (λ s. OfKnown (S.state store.old) (λ bytes. s ≡ layout.segment W bytes index)) }
    ensures begun_head { IsHeadOf (S.state store.new) head.now }
    ensures reads { OnlyReads (reading_ending result) (S.state store.old) (S.state store.new) }
    ensures taken { TakesAtMost 56 (S.state store.old) (S.state store.new) }
{
    let each = Class::<W>::program_header_length();
    let at = head.phoff + u64::from(index) * each as u64;
    let mut buf = [0u8; 56];
    let window = &mut buf[..each];
    store.read_at(at, window)?;
    Ok(Class::<W>::segment(window))
}
