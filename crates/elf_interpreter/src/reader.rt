//! Reads the interpreter of a file in a store.
ghost use Rattle.std.specs.Prelude.{◌≡◌, ◌≤◌, [], false, nat_lt, Some, None, find, IfOk};
ghost use Rattle.elf_headers.specs.Layout.{segments, word_size};
ghost use Rattle.elf_headers.specs.Reading.{IsHeadOf, KeepsFile, OfContent, OfKnown, OnlyReads, ReadsFile, TakesAtMost, reading_ending};
ghost use Rattle.elf_interpreter.specs.Faults.{interpreter_ending};
ghost use Rattle.elf_interpreter.specs.Interpreter.{interpreter, interpreter_by, is_interpreter, text_in};
ghost use Rattle.elf_interpreter.specs.declared.reader.TheConstants.{TEXT_MAX};
ghost use Rattle.tree_face.specs.StoreUse.{ReadsFiles};

use crate::InterpreterFault;
use elf_headers::kinds::{Head, Segment};
use elf_headers::{HeadFault, head, segment};
use lib_types::{Failed, Text, before_byte};
use std::alloc::Global;
use tree_face::Store;

const PT_INTERP: u32 = 3;

/// The most bytes of a segment with the path of an interpreter, as in Linux (execve(2)).
pub const TEXT_MAX: usize = 4096;

fn is_interpreter(s: Segment) -> bool
    ensures { result ≡ is_interpreter s }
{
    s.kind == PT_INTERP
}

// Whether the segment has more bytes than a path may have.
fn is_too_long(s: Segment) -> bool
    ensures long { result ≡ nat_lt TEXT_MAX s.filesz }
    ensures small { result ≡ false → s.filesz ≤ TEXT_MAX }
{
    s.filesz > TEXT_MAX as u64
}

// The first segment that names an interpreter.
#[tactic(auto, using(crate::proofs::OpenFile::on, crate::proofs::OpenFile::keeps_on))]
fn find_segment<S: Store>(store: &mut S, head: &Head) -> Result<Option<Segment>, Failed>
    requires head { IsHeadOf (S.state store.old) head.now }
    ensures found { IfOk result (λ s. OfKnown (S.state store.old) (λ bytes. s ≡ find is_interpreter (segments (word_size head.now.wide) bytes))) }
    ensures begun_head { IsHeadOf (S.state store.new) head.now }
    ensures keeps { KeepsFile (S.state store.old) (S.state store.new) }
    ensures reads { ReadsFiles ⊥ (Some []) None (reading_ending result) (S.state store.old) (S.state store.new) }
{
    for index in 0..head.phnum {
        let s = segment(store, head, index)?;
        if is_interpreter(s) {
            return Ok(Some(s));
        }
    }
    Ok(None)
}

// The path in a segment that names an interpreter.
#[tactic(auto, using(crate::proofs::OpenFile::too_long))]
fn text_in<S: Store>(
    alloc: Global,
    store: &mut S,
    head: &Head,
    s: Segment,
) -> Result<Option<Text>, InterpreterFault>
    requires head { IsHeadOf (S.state store.old) head.now }
    ensures text { IfOk result (λ text. OfKnown (S.state store.old) (λ bytes. text ≡ text_in bytes s)) }
    ensures reads { OnlyReads (interpreter_ending result) (S.state store.old) (S.state store.new) }
    ensures taken { TakesAtMost TEXT_MAX (S.state store.old) (S.state store.new) }
{
    if is_too_long(s) {
        return Ok(None);
    }
    let mut buf = [0u8; TEXT_MAX];
    let window = &mut buf[..s.filesz as usize];
    let count = store.read_at(s.offset, window)?;
    let text = Text::copy_of(alloc, before_byte(0, &window[..count]))?;
    Ok(Some(text))
}

// The interpreter that the open file names.
#[tactic(auto, using(crate::proofs::OpenFile::text_found, crate::proofs::OpenFile::none_found, crate::proofs::OpenFile::only_reads_on, crate::proofs::OpenFile::same_content))]
fn read_open<S: Store>(
    alloc: Global,
    store: &mut S,
    head: &Head,
) -> Result<Option<Text>, InterpreterFault>
    requires head { IsHeadOf (S.state store.old) head.now }
    ensures text { IfOk result (λ text. OfKnown (S.state store.old) (λ bytes. text ≡ interpreter_by (word_size head.now.wide) bytes)) }
    ensures reads { ReadsFiles ⊥ (Some []) None (interpreter_ending result) (S.state store.old) (S.state store.new) }
{
    match find_segment(store, head)? {
        Some(s) => text_in(alloc, store, head, s),
        None => Ok(None),
    }
}

/// Opens the file of a key and reads the path of the interpreter that it names. None if it isn't an ELF file, or names no interpreter.
#[tactic(auto, using(crate::proofs::OpenFile::read_whole, crate::proofs::OpenFile::no_head, crate::proofs::OpenFile::opened_on, crate::proofs::OpenFile::uncounted))]
pub fn interpreter<S: Store>(
    alloc: Global,
    store: &mut S,
    key: &[u8],
) -> Result<Option<Text>, InterpreterFault>
    ensures text { IfOk result (λ text. OfContent (S.state store.old).held key.now (λ bytes. text ≡ interpreter bytes)) }
    ensures reads { ReadsFile key.now None (interpreter_ending result) (S.state store.old) (S.state store.new) }
{
    match head(store, key) {
        Ok(head) => read_open(alloc, store, &head),
        Err(HeadFault::Bad(_)) => Ok(None),
        Err(HeadFault::StoreFault) => Err(InterpreterFault::StoreFault),
    }
}
