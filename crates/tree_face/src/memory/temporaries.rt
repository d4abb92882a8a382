//! The temporary files of a slot in memory.
ghost use Rattle.std.specs.Prelude.{◌≡◌, ◌++◌, ℕ, [], Some, None, IsSome, true, false, OnOk, OnErr};
ghost use Rattle.std.specs.Option.{option_map};

use lib_types::NoMemory;
use std::alloc::Global;
use std::collections::BTreeMap;

/// A temporary file.
#[derive(Drop)]
pub struct Temporary {
    pub bytes: Vec<u8>,
    /// Whether it was flushed since its last append.
    pub synced: bool,
}

/// The temporary files of a slot, by tag.
#[derive(Drop)]
pub struct Temporaries {
    files: BTreeMap<u16, Temporary>,
}

impl Temporaries {
    ghost use Rattle.tree_face.specs.Temporaries.{file_in, synced_in, temporary_in, KeepsOtherTags, KeepsTag};

    /// No temporary files.
    pub fn new(alloc: Global) -> Temporaries
        ensures { (tag : ℕ) → file_in result tag ≡ None }
    {
        Temporaries {
            files: BTreeMap::new(alloc),
        }
    }

    /// Creates the temporary file, or truncates it.
    pub fn create(&mut self, alloc: Global, tag: u16) -> Result<(), NoMemory>
        ensures empty { OnOk result (temporary_in self.new tag ≡ Some []) }
        ensures unflushed { OnOk result (synced_in self.new tag ≡ false) }
        ensures refused { OnErr result (KeepsTag self.old self.new tag) }
        ensures others { KeepsOtherTags self.old self.new tag }
    {
        let empty = Temporary {
            bytes: Vec::new(alloc),
            synced: false,
        };
        self.files.insert(tag, empty)?;
        Ok(())
    }

    /// Appends bytes to the temporary file, if there is one.
    pub fn append(&mut self, tag: u16, bytes: &[u8]) -> Result<(), NoMemory>
        ensures more { OnOk result (temporary_in self.new tag ≡ option_map (λ c. c ++ bytes.now) (temporary_in self.old tag)) }
        ensures unflushed { OnOk result (synced_in self.new tag ≡ false) }
        ensures refused { OnErr result (KeepsTag self.old self.new tag) }
        ensures others { KeepsOtherTags self.old self.new tag }
    {
        if let Some(file) = self.files.get_mut(&tag) {
            file.bytes.extend_from_slice(bytes)?;
            file.synced = false;
        }
        Ok(())
    }

    /// Marks the temporary file as flushed, if there is one.
    pub fn sync(&mut self, tag: u16)
        ensures bytes { temporary_in self.new tag ≡ temporary_in self.old tag }
        ensures flushed { IsSome (temporary_in self.old tag) → synced_in self.new tag ≡ true }
        ensures others { KeepsOtherTags self.old self.new tag }
    {
        if let Some(file) = self.files.get_mut(&tag) {
            file.synced = true;
        }
    }

    /// Removes the temporary file and returns it, if there is one.
    pub fn take(&mut self, tag: u16) -> Option<Temporary>
        ensures file { result ≡ file_in self.old tag }
        ensures ended { file_in self.new tag ≡ None }
        ensures others { KeepsOtherTags self.old self.new tag }
    {
        self.files.remove(&tag)
    }
}
