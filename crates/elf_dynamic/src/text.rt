//! The texts of a string table.
ghost use Rattle.std.specs.Prelude.{◌≡◌, ◌<◌, ◌+◌, ◌-◌, ◌++◌, not, min, take, position, take_while, Ok, IfOk};
ghost use Rattle.std.specs.List.{list_any};
ghost use Rattle.elf_headers.specs.Reading.{OfKnown, TakesAtMost, reading_ending};
ghost use Rattle.elf_dynamic.specs.Cursor.{IsCursorOf, ReadsOn, IsInFile, strings_of};
ghost use Rattle.elf_dynamic.specs.Faults.{analyse_ending};
ghost use Rattle.elf_dynamic.specs.Section.{bytes_of, is_nul, has_text_at};
ghost use Rattle.elf_dynamic.specs.declared.text.TheConstants.{TEXT_LIMIT};
ghost use Rattle.elf_dynamic.specs.Texts.{before_nul, text_found};

use crate::kinds::Place;
use crate::{AnalyseFault, ElfFile};
use lib_types::{Failed, Text, find_byte};
use std::alloc::{AllocError, Global};
use tree_face::Store;

/// The maximum number of bytes that are read for a text, including its NUL.
pub const TEXT_LIMIT: u64 = 1 << 16;

// Appends the bytes before the first NUL. Returns whether there is a NUL.
fn add_text(found: &mut Vec<u8>, piece: &[u8]) -> Result<bool, AllocError>
    ensures ended { IfOk result (λ ended. ended ≡ list_any is_nul piece.now) }
    ensures found { IfOk result (λ _. found.new.items ≡ found.old.items ++ take_while (λ b. not (is_nul b)) piece.now) }
{
    match find_byte(0, piece) {
        Some(end) => {
            found.extend_from_slice(&piece[..end])?;
            Ok(true)
        }
        None => {
            found.extend_from_slice(piece)?;
            Ok(false)
        }
    }
}

// The first `most` bytes, or all bytes if there are fewer.
fn front(bytes: &[u8], most: u64) -> &[u8]
    ensures { result.now ≡ take most bytes.now }
{
    if most < bytes.len() as u64 {
        &bytes[..most as usize]
    } else {
        bytes
    }
}

// The maximum number of bytes to read for the text at an offset of the table.
fn most_at(table: Place, offset: u64) -> u64
    requires { offset < table.size }
    ensures { result ≡ min (table.size - offset) TEXT_LIMIT }
{
    (table.size - offset).min(TEXT_LIMIT)
}

impl<'s, S: Store> ElfFile<'s, S> {
    // The bytes before the first NUL in a place. None if the place has no NUL.
    fn read_text(&mut self, alloc: Global, place: Place) -> Result<Option<Text>, AnalyseFault>
        requires cursor { IsCursorOf (S.state self.old.store.now) self.old.cursor }
        requires within { IsInFile self.old.cursor.head place }
        ensures same_store { self.new.store.ghost_name ≡ self.old.store.ghost_name }
        ensures reads { ReadsOn (analyse_ending result) (S.state self.old.store.now) (S.state self.new.store.now) self.old.cursor self.new.cursor }
        ensures section { self.new.cursor.section ≡ self.old.cursor.section }
        ensures taken { TakesAtMost place.size (S.state self.old.store.now) (S.state self.new.store.now) }
        ensures text { IfOk result (λ t. OfKnown (S.state self.old.store.now) (λ bytes. t ≡ before_nul (bytes_of place bytes))) }
    {
        let mut found = Vec::new(alloc);
        let mut at = place.at;
        let mut left = place.size;
        while left > 0 {
            let head = &self.cursor.head;
            self.cursor
                .headers
                .hold(self.store, head, at, 1, at + left)?;
            let piece = front(self.cursor.headers.from(at), left);
            if add_text(&mut found, piece)? {
                return Ok(Some(Text::from_vec(found)));
            }
            let count = piece.len() as u64;
            at += count;
            left -= count;
        }
        Ok(None)
    }

    // Whether a place has a NUL.
    fn has_nul(&mut self, place: Place) -> Result<bool, Failed>
        requires cursor { IsCursorOf (S.state self.old.store.now) self.old.cursor }
        requires within { IsInFile self.old.cursor.head place }
        ensures same_store { self.new.store.ghost_name ≡ self.old.store.ghost_name }
        ensures reads { ReadsOn (reading_ending result) (S.state self.old.store.now) (S.state self.new.store.now) self.old.cursor self.new.cursor }
        ensures section { self.new.cursor.section ≡ self.old.cursor.section }
        ensures taken { TakesAtMost place.size (S.state self.old.store.now) (S.state self.new.store.now) }
        ensures nul { IfOk result (λ b. OfKnown (S.state self.old.store.now) (λ bytes. b ≡ list_any is_nul (bytes_of place bytes))) }
    {
        let end = place.at + place.size;
        let mut at = place.at;
        while at < end {
            let head = &self.cursor.head;
            self.cursor.headers.hold(self.store, head, at, 1, end)?;
            let piece = front(self.cursor.headers.from(at), end - at);
            if find_byte(0, piece).is_some() {
                return Ok(true);
            }
            at += piece.len() as u64;
        }
        Ok(false)
    }

    /// The text at an offset of the string table. None if no NUL ends it.
    pub fn text_at(&mut self, alloc: Global, offset: u64) -> Result<Option<Text>, AnalyseFault>
        requires cursor { IsCursorOf (S.state self.old.store.now) self.old.cursor }
        ensures same_store { self.new.store.ghost_name ≡ self.old.store.ghost_name }
        ensures reads { ReadsOn (analyse_ending result) (S.state self.old.store.now) (S.state self.new.store.now) self.old.cursor self.new.cursor }
        ensures section { self.new.cursor.section ≡ self.old.cursor.section }
        ensures taken { TakesAtMost TEXT_LIMIT (S.state self.old.store.now) (S.state self.new.store.now) }
        ensures text { IfOk result (λ t. OfKnown (S.state self.old.store.now) (λ bytes. t ≡ text_found (strings_of self.old.cursor bytes) offset)) }
    {
        let strings = self.cursor.strings;
        if offset >= strings.size {
            return Ok(None);
        }
        let size = most_at(strings, offset);
        let at = strings.at + offset;
        self.read_text(alloc, Place { at, size })
    }

    /// Whether a NUL ends the text at an offset of the string table.
    pub fn has_text_at(&mut self, offset: u64) -> Result<bool, Failed>
        requires cursor { IsCursorOf (S.state self.old.store.now) self.old.cursor }
        ensures same_store { self.new.store.ghost_name ≡ self.old.store.ghost_name }
        ensures reads { ReadsOn (reading_ending result) (S.state self.old.store.now) (S.state self.new.store.now) self.old.cursor self.new.cursor }
        ensures section { self.new.cursor.section ≡ self.old.cursor.section }
        ensures taken { TakesAtMost TEXT_LIMIT (S.state self.old.store.now) (S.state self.new.store.now) }
        ensures text { IfOk result (λ b. OfKnown (S.state self.old.store.now) (λ bytes. b ≡ has_text_at (strings_of self.old.cursor bytes) offset)) }
    {
        let strings = self.cursor.strings;
        if offset >= strings.size {
            return Ok(false);
        }
        let size = most_at(strings, offset);
        let at = strings.at + offset;
        self.has_nul(Place { at, size })
    }
}
