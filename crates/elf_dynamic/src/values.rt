//! The values of the entries that have no texts.
ghost use Rattle.std.specs.Prelude.{◌≡◌, ◌≤◌, ◌*◌, ◌+◌, ◌<◌, ◌^◌, ◌∷◌, [], ◌==◌, ◌||◌, None, Some, IfOk};
ghost use Rattle.lib_types.specs.Ranges.{is_text_tag};
ghost use Rattle.elf_headers.specs.Reading.{OfKnown, TakesAtMost, reading_ending};
ghost use Rattle.elf_dynamic.specs.Cursor.{IsCursorOf, ReadsOn, width};
ghost use Rattle.elf_dynamic.specs.declared.kinds.DynamicEntry.{DynamicEntry};
ghost use Rattle.elf_dynamic.specs.Section.{dynamic_entries};
ghost use Rattle.elf_dynamic.specs.Values.{first_of, joined, values_of};

use crate::ElfFile;
use crate::entries::Entries;
use crate::kinds::DynamicEntry;
use elf_headers::kinds::Segment;
use lib_types::{
    DT_FLAGS_1, DT_NEEDED, DT_RPATH, DT_RUNPATH, DT_SONAME, DT_STRSZ, DT_STRTAB, Failed,
};
use tree_face::Store;

/// The value of the first entry with each of these tags, and the number of entries with a text.
#[derive(Clone, Copy)]
pub struct Values {
    pub texts: u64,
    pub strtab: Option<u64>,
    pub strsz: Option<u64>,
    pub flags_1: Option<u64>,
}

// The value of the first entry with a tag, after another entry with this tag.
fn first(before: Option<u64>, value: u64) -> Option<u64>
    ensures { result ≡ first_of before (Some value) }
{
    before.or(Some(value))
}

/// Whether the value of an entry with this tag is the offset of a text.
pub fn is_text(tag: u64) -> bool
    ensures { result ≡ is_text_tag tag }
{
    tag == DT_NEEDED || tag == DT_SONAME || tag == DT_RPATH || tag == DT_RUNPATH
}

impl Values {
    fn none() -> Values
        ensures { result ≡ record { texts = 0; strtab = None; strsz = None; flags_1 = None } }
    {
        Values {
            texts: 0,
            strtab: None,
            strsz: None,
            flags_1: None,
        }
    }

    // The values after one more entry. Most entries change nothing.
    fn with(self, entry: DynamicEntry) -> Values
        requires { self.texts + 1 < 2 ^ 64 }
        ensures { result ≡ joined self (entry ∷ []) }
    {
        let mut with = self;
        if is_text(entry.tag) {
            with.texts += 1;
        } else if entry.tag == DT_STRTAB {
            with.strtab = first(self.strtab, entry.value);
        } else if entry.tag == DT_STRSZ {
            with.strsz = first(self.strsz, entry.value);
        } else if entry.tag == DT_FLAGS_1 {
            with.flags_1 = first(self.flags_1, entry.value);
        }
        with
    }
}

/// Reads the values of the entries of a segment that have no texts.
pub fn read_values<S: Store>(file: &mut ElfFile<'_, S>, dynamic: Segment) -> Result<Values, Failed>
    requires cursor { IsCursorOf (S.state file.old.store.now) file.old.cursor }
    requires within { dynamic.offset + dynamic.filesz ≤ file.old.cursor.head.length }
    ensures same_store { file.new.store.ghost_name ≡ file.old.store.ghost_name }
    ensures reads { ReadsOn (reading_ending result) (S.state file.old.store.now) (S.state file.new.store.now) file.old.cursor file.new.cursor }
    ensures taken { TakesAtMost (2 * dynamic.filesz) (S.state file.old.store.now) (S.state file.new.store.now) }
    ensures values { IfOk result (λ v. OfKnown (S.state file.old.store.now) (λ bytes. v ≡ values_of (dynamic_entries (width file.old.cursor) bytes dynamic))) }
{
    let mut values = Values::none();
    let mut entries = Entries::new(file.cursor.head.wide, dynamic);
    while let Some(entry) = entries.next(file)? {
        values = values.with(entry);
    }
    Ok(values)
}
