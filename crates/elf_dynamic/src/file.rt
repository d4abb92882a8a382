//! A cursor over the ELF file that is open in a store.
ghost use Rattle.std.specs.Prelude.{◌≡◌, ◌≤◌, ◌+◌};
ghost use Rattle.elf_headers.specs.Reading.{IsHeadOf};
ghost use Rattle.elf_dynamic.specs.Cursor.{IsCursorOf, no_strings};

use crate::kinds::Place;
use crate::window::Window;
use elf_headers::kinds::Head;
use tree_face::Store;

/// What is known about the open file.
#[derive(Drop)]
pub struct Cursor {
    pub(crate) head: Head,
    // Bytes around the program headers, later around the texts of the string table.
    pub(crate) headers: Window,
    // Bytes around the entries of the dynamic section.
    pub(crate) section: Window,
    // The string table. It is empty until it is known.
    pub(crate) strings: Place,
}

/// The ELF file that is open in a store. It is read through windows, so that nearby bytes aren't read again.
#[derive(Drop)]
pub struct ElfFile<'s, S: Store> {
    pub(crate) store: &'s mut S,
    pub(crate) cursor: Cursor,
}

impl<'s, S: Store> ElfFile<'s, S> {
    /// The open file, with the header that `elf_headers::head` has read from it.
    pub fn new(store: &'s mut S, head: Head) -> ElfFile<'s, S>
        requires head { IsHeadOf (S.state store.old) head }
        ensures same_store { result.store.ghost_name ≡ store.entry.ghost_name }
        ensures unread { result.store.now ≡ store.old }
        ensures cursor { IsCursorOf (S.state result.store.now) result.cursor }
        ensures head { result.cursor.head ≡ head }
        ensures strings { result.cursor.strings ≡ no_strings }
    {
        ElfFile {
            store,
            cursor: Cursor {
                head,
                headers: Window::new(),
                section: Window::new(),
                strings: Place { at: 0, size: 0 },
            },
        }
    }

    /// The file's header.
    pub fn head(&self) -> &Head
        ensures { result.now ≡ self.now.cursor.head }
    {
        &self.cursor.head
    }

    /// Sets the string table.
    pub fn set_strings(&mut self, strings: Place)
        requires within { strings.at + strings.size ≤ self.old.cursor.head.length }
        ensures same_store { self.new.store ≡ self.old.store }
        ensures strings { self.new.cursor ≡ record self.old.cursor { strings = strings } }
    {
        self.cursor.strings = strings;
    }
}
