//! The entries of a dynamic section, in order.
ghost use Rattle.std.specs.Prelude.{◌≡◌, ◌⊎◌, ◌≤◌, ◌<◌, ◌+◌, ◌-◌, ◌*◌, ◌∷◌, [], true, false, min, length, IfOk, OnOk, IfSome, MatchOption, ◌^◌};
ghost use Rattle.elf_headers.specs.Layout.{word_size};
ghost use Rattle.elf_headers.specs.Reading.{OfKnown, TakesAtMost, reading_ending};
ghost use Rattle.elf_dynamic.specs.Cursor.{IsCursorOf, ReadsOn};
ghost use Rattle.elf_dynamic.specs.Section.{entry_at};
ghost use Rattle.elf_dynamic.specs.Entries.{rest_of, IsReaderOf, KnowsNext, MovesOn, unread_in, unread_after};
ghost use Rattle.elf_dynamic.specs.Windows.{Lessens};

use crate::ElfFile;
use crate::kinds::DynamicEntry;
use elf_headers::Class;
use elf_headers::kinds::Segment;
use lib_types::{DT_NULL, Failed};
use tree_face::Store;

/// A reader of the entries of a section. It reads through the file's window.
#[derive(Clone, Copy)]
pub struct Entries {
    wide: bool,
    // Where the section ends, and the number of bytes from the next entry to this end.
    end: u64,
    left: u64,
    // How many of these bytes are known to be in the window.
    held: u64,
}

// The length of an entry: its tag and its value.
fn entry_length(wide: bool) -> u64
    ensures { result ≡ 2 * word_size wide }
{
    if wide { 16 } else { 8 }
}

fn entry_of_class<const W: usize>(bytes: &[u8]) -> DynamicEntry
    requires class { (W ≡ 4) ⊎ (W ≡ 8) }
    requires within { 2 * W ≤ length bytes.now }
    ensures { result ≡ entry_at W bytes.now 0 }
{
    DynamicEntry {
        tag: Class::<W>::word(bytes, 0),
        value: Class::<W>::word(bytes, W),
    }
}

// The entry at the start of these bytes.
fn entry(wide: bool, bytes: &[u8]) -> DynamicEntry
    requires { 2 * word_size wide ≤ length bytes.now }
    ensures { result ≡ entry_at (word_size wide) bytes.now 0 }
{
    if wide {
        entry_of_class::<8>(bytes)
    } else {
        entry_of_class::<4>(bytes)
    }
}

impl Entries {
    /// The entries of a segment.
    pub fn new(wide: bool, dynamic: Segment) -> Entries
        requires { dynamic.offset + dynamic.filesz < 2 ^ 64 }
        ensures { result ≡ record { wide = wide; end = dynamic.offset + dynamic.filesz; left = dynamic.filesz; held = 0 } }
    {
        Entries {
            wide,
            end: dynamic.offset + dynamic.filesz,
            left: dynamic.filesz,
            held: 0,
        }
    }

    // The offset of the next entry.
    fn at(&self) -> u64
        requires { self.now.left ≤ self.now.end }
        ensures { result ≡ self.now.end - self.now.left }
    {
        self.end - self.left
    }

    // Makes sure that the window holds the next entry. Returns whether there is one.
    fn hold<S: Store>(&mut self, file: &mut ElfFile<'_, S>) -> Result<bool, Failed>
        requires cursor { IsCursorOf (S.state file.old.store.now) file.old.cursor }
        requires reader { IsReaderOf file.old.cursor self.old }
        ensures same_store { file.new.store.ghost_name ≡ file.old.store.ghost_name }
        ensures reads { ReadsOn (reading_ending result) (S.state file.old.store.now) (S.state file.new.store.now) file.old.cursor file.new.cursor }
        ensures taken { TakesAtMost (unread_in file.old.cursor.section self.old) (S.state file.old.store.now) (S.state file.new.store.now) }
        ensures reader { IsReaderOf file.new.cursor self.new }
        ensures next { IfOk result (λ there. KnowsNext there self.old self.new) }
        ensures left { OnOk result (Lessens (unread_in file.old.cursor.section self.old) (unread_after file.new.cursor.section self.old) (S.state file.old.store.now) (S.state file.new.store.now)) }
    {
        let each = entry_length(self.wide);
        if self.held >= each {
            return Ok(true);
        }
        if self.left < each {
            return Ok(false);
        }
        let at = self.at();
        // After a failure the window holds nothing.
        self.held = 0;
        let head = &file.cursor.head;
        file.cursor
            .section
            .hold(file.store, head, at, each, self.end)?;
        self.held = file.cursor.section.ready(at).min(self.left);
        Ok(true)
    }

    /// The next entry. None at the end of the section or at a DT_NULL.
    pub fn next<S: Store>(
        &mut self,
        file: &mut ElfFile<'_, S>,
    ) -> Result<Option<DynamicEntry>, Failed>
        requires cursor { IsCursorOf (S.state file.old.store.now) file.old.cursor }
        requires reader { IsReaderOf file.old.cursor self.old }
        ensures same_store { file.new.store.ghost_name ≡ file.old.store.ghost_name }
        ensures reads { ReadsOn (reading_ending result) (S.state file.old.store.now) (S.state file.new.store.now) file.old.cursor file.new.cursor }
        ensures taken { TakesAtMost (unread_in file.old.cursor.section self.old) (S.state file.old.store.now) (S.state file.new.store.now) }
        ensures reader { IsReaderOf file.new.cursor self.new }
        ensures entry { IfOk result (λ e. OfKnown (S.state file.old.store.now) (λ bytes.
            MatchOption e (rest_of self.old bytes ≡ []) (λ e. rest_of self.old bytes ≡ e ∷ rest_of self.new bytes))) }
        ensures moves { IfOk result (λ e. IfSome e (λ _.
            MovesOn file.old.cursor file.new.cursor self.old self.new (S.state file.old.store.now) (S.state file.new.store.now))) }
    {
        if !self.hold(file)? {
            return Ok(None);
        }
        let entry = entry(self.wide, file.cursor.section.from(self.at()));
        if entry.tag == DT_NULL {
            return Ok(None);
        }
        let each = entry_length(self.wide);
        self.left -= each;
        self.held -= each;
        Ok(Some(entry))
    }
}
