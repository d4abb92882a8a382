//! Numbers in the file.
ghost use Rattle.std.specs.Prelude.{◌≡◌, ◌+◌, ◌-◌, IfOk, OnOk};
ghost use Rattle.lib_types.specs.Bytes.{field};
ghost use Rattle.elf_headers.specs.Reading.{OfKnown, TakesAtMost, reading_ending};
ghost use Rattle.elf_dynamic.specs.Cursor.{IsCursorOf, ReadsOn, IsNumberIn, unread_of};
ghost use Rattle.elf_dynamic.specs.Windows.{Lessens};

use crate::ElfFile;
use crate::kinds::Place;
use byteorder::{ByteOrder, LittleEndian};
use lib_types::Failed;
use tree_face::Store;

impl<'s, S: Store> ElfFile<'s, S> {
    /// The number of `size` bytes at an offset of a place. It is read through the window of the entries. If numbers are read in ascending
    /// order, each byte is read at most twice.
    pub fn number_at(&mut self, place: Place, offset: u64, size: usize) -> Result<u64, Failed>
        requires cursor { IsCursorOf (S.state self.old.store.now) self.old.cursor }
        requires number { IsNumberIn self.old.cursor.head place offset size }
        ensures same_store { self.new.store.ghost_name ≡ self.old.store.ghost_name }
        ensures reads { ReadsOn (reading_ending result) (S.state self.old.store.now) (S.state self.new.store.now) self.old.cursor self.new.cursor }
        ensures taken { TakesAtMost (place.size - offset) (S.state self.old.store.now) (S.state self.new.store.now) }
        ensures left { OnOk result (Lessens
            (unread_of self.old.cursor place offset) (unread_of self.new.cursor place (offset + size))
            (S.state self.old.store.now) (S.state self.new.store.now)) }
        ensures number { IfOk result (λ n. OfKnown (S.state self.old.store.now) (λ bytes. n ≡ field bytes (place.at + offset) size)) }
    {
        let at = place.at + offset;
        let end = place.at + place.size;
        let head = &self.cursor.head;
        self.cursor
            .section
            .hold(self.store, head, at, size as u64, end)?;
        Ok(LittleEndian::read_uint(self.cursor.section.from(at), size))
    }
}
