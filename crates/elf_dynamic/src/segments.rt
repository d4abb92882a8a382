//! The segments that are looked for.
ghost use Rattle.std.specs.Prelude.{◌≡◌, ◌⊎◌, ◌≤◌, ◌<◌, ◌+◌, ◌-◌, ◌*◌, ◌^◌, true, find, length, IfOk, IfSome, OnOk};
ghost use Rattle.elf_headers.specs.Layout.{word_size, program_header_length, segment_at, segment, segments};
ghost use Rattle.elf_headers.specs.Reading.{OfKnown, TakesAtMost, reading_ending};
ghost use Rattle.elf_dynamic.specs.Cursor.{IsCursorOf, ReadsOn, width};
ghost use Rattle.elf_dynamic.specs.Wanted.{is_wanted};
ghost use Rattle.elf_dynamic.specs.Windows.{Lessens, header_at, unread_from};

use crate::ElfFile;
use elf_headers::Class;
use elf_headers::kinds::{Head, Segment};
use lib_types::{Failed, PT_DYNAMIC, PT_LOAD};
use tree_face::Store;

/// Which segment is looked for.
#[derive(Clone, Copy)]
pub enum Wanted {
    /// PT_DYNAMIC.
    DynamicSection,
    /// A PT_LOAD that has this address in its file part.
    LoadAt(u64),
}

fn is_wanted(wanted: Wanted, s: Segment) -> bool
    ensures { result ≡ is_wanted wanted s }
{
    match wanted {
        Wanted::DynamicSection => s.kind == PT_DYNAMIC,
        Wanted::LoadAt(address) => {
            s.kind == PT_LOAD && s.vaddr <= address && address - s.vaddr < s.filesz
        }
    }
}

// The length of a program header.
fn header_length(wide: bool) -> u64
    ensures { result ≡ program_header_length (word_size wide) }
{
    if wide { 56 } else { 32 }
}

// The segment of the program header at the start of these bytes.
fn segment_of(wide: bool, bytes: &[u8]) -> Segment
    requires { program_header_length (word_size wide) ≤ length bytes.now }
    ensures { result ≡ segment_at (word_size wide) bytes.now 0 }
{
    if wide {
        Class::<8>::segment(bytes)
    } else {
        Class::<4>::segment(bytes)
    }
}

// The offset of the program header with this index.
fn header_at(head: &Head, index: u16) -> u64
    requires small { head.now.length < 2 ^ 64 }
    requires headers { (head.now.phnum ≡ 0) ⊎ (header_at head.now head.now.phnum ≤ head.now.length) }
    requires index { index ≤ head.now.phnum }
    ensures { result ≡ header_at head.now index }
{
    let each = header_length(head.wide);
    head.phoff + u64::from(index) * each
}

impl<'s, S: Store> ElfFile<'s, S> {
    // The segment of the program header with this index.
    fn read_segment(&mut self, index: u16) -> Result<Segment, Failed>
        requires cursor { IsCursorOf (S.state self.old.store.now) self.old.cursor }
        requires index { index < self.old.cursor.head.phnum }
        ensures same_store { self.new.store.ghost_name ≡ self.old.store.ghost_name }
        ensures reads { ReadsOn (reading_ending result) (S.state self.old.store.now) (S.state self.new.store.now) self.old.cursor self.new.cursor }
        ensures section { self.new.cursor.section ≡ self.old.cursor.section }
        ensures taken { TakesAtMost (unread_from self.old.cursor.headers self.old.cursor.head index) (S.state self.old.store.now) (S.state self.new.store.now) }
        ensures segment { IfOk result (λ s. OfKnown (S.state self.old.store.now) (λ bytes. s ≡ segment (width self.old.cursor) bytes index)) }
        ensures left { OnOk result (Lessens
            (unread_from self.old.cursor.headers self.old.cursor.head index) (unread_from self.new.cursor.headers self.old.cursor.head (index + 1))
            (S.state self.old.store.now) (S.state self.new.store.now)) }
    {
        let head = &self.cursor.head;
        let at = header_at(head, index);
        let end = header_at(head, head.phnum);
        let each = header_length(head.wide);
        self.cursor.headers.hold(self.store, head, at, each, end)?;
        Ok(segment_of(head.wide, self.cursor.headers.from(at)))
    }

    /// The first segment that is wanted.
    pub(crate) fn find_segment(&mut self, wanted: Wanted) -> Result<Option<Segment>, Failed>
        requires cursor { IsCursorOf (S.state self.old.store.now) self.old.cursor }
        ensures same_store { self.new.store.ghost_name ≡ self.old.store.ghost_name }
        ensures reads { ReadsOn (reading_ending result) (S.state self.old.store.now) (S.state self.new.store.now) self.old.cursor self.new.cursor }
        ensures section { self.new.cursor.section ≡ self.old.cursor.section }
        ensures taken { TakesAtMost (112 * self.old.cursor.head.phnum) (S.state self.old.store.now) (S.state self.new.store.now) }
        ensures found { IfOk result (λ s. OfKnown (S.state self.old.store.now) (λ bytes. s ≡ find (is_wanted wanted) (segments (width self.old.cursor) bytes))) }
        ensures wanted { IfOk result (λ s. IfSome s (λ s. is_wanted wanted s ≡ true)) }
    {
        for index in 0..self.cursor.head.phnum {
            let s = self.read_segment(index)?;
            if is_wanted(wanted, s) {
                return Ok(Some(s));
            }
        }
        Ok(None)
    }
}
