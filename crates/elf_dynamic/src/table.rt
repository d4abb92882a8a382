//! Finds addresses in the file, by the PT_LOAD segments.
ghost use Rattle.std.specs.Prelude.{◌≡◌, ◌≤◌, ◌<◌, ◌+◌, ◌*◌, IfOk, IfSome};
ghost use Rattle.elf_headers.specs.Layout.{segments};
ghost use Rattle.elf_headers.specs.Reading.{OfKnown, TakesAtMost, reading_ending};
ghost use Rattle.elf_dynamic.specs.Cursor.{IsCursorOf, ReadsOn, IsInFile, width};
ghost use Rattle.elf_dynamic.specs.Section.{bytes_if, place_in, place_of, table_at};

use crate::ElfFile;
use crate::kinds::Place;
use crate::segments::Wanted;
use elf_headers::kinds::Segment;
use lib_types::Failed;
use tree_face::Store;

// The place of an address in a segment, for a file of this length.
fn place_in(length: u64, address: u64, load: Segment) -> Option<Place>
    requires begins { load.vaddr ≤ address }
    requires ends { address < load.vaddr + load.filesz }
    ensures place { result ≡ place_in length address load }
    ensures within { IfSome result (λ p. p.at + p.size ≤ length) }
{
    let from = address - load.vaddr;
    let at = load.offset.checked_add(from)?;
    let left = length.checked_sub(at)?;
    Some(Place {
        at,
        size: (load.filesz - from).min(left),
    })
}

impl<'s, S: Store> ElfFile<'s, S> {
    /// The place of an address in the first PT_LOAD that has the address. It ends with the segment's file part, or with the file.
    pub fn place_of(&mut self, address: u64) -> Result<Option<Place>, Failed>
        requires cursor { IsCursorOf (S.state self.old.store.now) self.old.cursor }
        ensures same_store { self.new.store.ghost_name ≡ self.old.store.ghost_name }
        ensures reads { ReadsOn (reading_ending result) (S.state self.old.store.now) (S.state self.new.store.now) self.old.cursor self.new.cursor }
        ensures section { self.new.cursor.section ≡ self.old.cursor.section }
        ensures taken { TakesAtMost (112 * self.old.cursor.head.phnum) (S.state self.old.store.now) (S.state self.new.store.now) }
        ensures place { IfOk result (λ p. OfKnown (S.state self.old.store.now) (λ bytes. p ≡ place_of bytes (segments (width self.old.cursor) bytes) address)) }
        ensures within { IfOk result (λ p. IfSome p (IsInFile self.old.cursor.head)) }
    {
        match self.find_segment(Wanted::LoadAt(address))? {
            Some(load) => Ok(place_in(self.cursor.head.length, address, load)),
            None => Ok(None),
        }
    }

    /// The place of the `size` bytes at an address.
    pub fn table_at(&mut self, address: u64, size: u64) -> Result<Option<Place>, Failed>
        requires cursor { IsCursorOf (S.state self.old.store.now) self.old.cursor }
        ensures same_store { self.new.store.ghost_name ≡ self.old.store.ghost_name }
        ensures reads { ReadsOn (reading_ending result) (S.state self.old.store.now) (S.state self.new.store.now) self.old.cursor self.new.cursor }
        ensures section { self.new.cursor.section ≡ self.old.cursor.section }
        ensures taken { TakesAtMost (112 * self.old.cursor.head.phnum) (S.state self.old.store.now) (S.state self.new.store.now) }
        ensures table { IfOk result (λ t. OfKnown (S.state self.old.store.now) (λ bytes.
            bytes_if t bytes ≡ table_at bytes (segments (width self.old.cursor) bytes) address size)) }
        ensures within { IfOk result (λ t. IfSome t (IsInFile self.old.cursor.head)) }
    {
        match self.place_of(address)? {
            Some(place) => Ok(place.front(size)),
            None => Ok(None),
        }
    }
}
