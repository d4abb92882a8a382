//! The three files that the product keeps, and how they are replaced.
ghost use Rattle.std.specs.Prelude.{◌≡◌, true, OnOk};
ghost use Rattle.tree_face.specs.Calls.{made_call, settling};
ghost use Rattle.tree_face.specs.Crash.{AddsPublished, HasMoments, KeepsSlots, Settles};
ghost use Rattle.tree_face.specs.Disk.{DiskState, Creates, Appends, Keeps, Spoils, Syncs, Publishes, MayPublish, Does, IsMadeIfThere, KeepsMade, KeepsOthersMade, ReadsSlot};

use lib_types::Failed;
use std::alloc::Global;

/// A file that a disk keeps.
#[derive(Clone, Copy, Debug, PartialEq, Eq, PartialOrd, Ord)]
pub enum Slot {
    /// The image's manifest.
    Manifest,
    /// The cache that the loader reads.
    Cache,
    /// The auxiliary cache.
    Aux,
}

/// The number of an updater. Each updater has its own temporary files.
#[derive(Clone, Copy, Debug, PartialEq, Eq, PartialOrd, Ord)]
pub struct Tag(pub u16);

/// A writing call of a disk.
#[derive(Clone, Copy, Debug, PartialEq, Eq)]
pub enum Call {
    Create,
    Append,
    Sync,
    Publish,
    Settle,
}

/// A writing call that was made. A `settle` has tag 0.
#[derive(Clone, Copy, Debug, PartialEq, Eq)]
pub struct DoneCall {
    pub tag: Tag,
    pub slot: Slot,
    pub call: Call,
}

/// Why reading a slot failed.
#[derive(Clone, Copy, Debug, PartialEq, Eq)]
pub enum DiskRead {
    Failed,
    NoMemory,
}

/// Storage for three files, the slots, with a temporary file for each tag and slot. Each call that returns Failed
/// raises the count of faults. A failed read also raises the count of read faults.
pub trait Disk {
    ghost state: { Self → DiskState };

    /// Reads the slot's content. Returns None if the file doesn't exist.
    fn read(&mut self, alloc: Global, slot: Slot) -> Result<Option<Vec<u8>>, DiskRead>
        ensures { ReadsSlot (state self.old) (state self.new) slot result };

    /// Creates the temporary file of this tag and slot, or truncates it.
    fn create(&mut self, tag: Tag, slot: Slot) -> Result<(), Failed>
        ensures does { Does (made_call tag slot Call.Create) (Creates tag.0 slot) (Spoils tag.0 slot) (state self.old) (state self.new) result }
        ensures made { OnOk result ((state self.new).made tag.0 slot ≡ true) }
        ensures others { KeepsOthersMade tag.0 slot (state self.old) (state self.new) }
        ensures crash { KeepsSlots (state self.old) (state self.new) };

    /// Appends bytes to the temporary file. After an error the file may have any bytes.
    fn append(&mut self, tag: Tag, slot: Slot, bytes: &[u8]) -> Result<(), Failed>
        requires { (state self.old).made tag.0 slot ≡ true }
        ensures does { Does (made_call tag slot Call.Append) (Appends tag.0 slot bytes.now) (Spoils tag.0 slot) (state self.old) (state self.new) result }
        ensures made { KeepsMade (state self.old) (state self.new) }
        ensures crash { KeepsSlots (state self.old) (state self.new) };

    /// Flushes the temporary file's bytes to stable storage.
    fn sync(&mut self, tag: Tag, slot: Slot) -> Result<(), Failed>
        requires { (state self.old).made tag.0 slot ≡ true }
        ensures does { Does (made_call tag slot Call.Sync) (Syncs tag.0 slot) (Spoils tag.0 slot) (state self.old) (state self.new) result }
        ensures made { KeepsMade (state self.old) (state self.new) }
        ensures crash { KeepsSlots (state self.old) (state self.new) };

    /// Renames the temporary file into place: it becomes the slot's content. After an error the slot has the old content
    /// or the new one. Until `settle`, a crash may leave either one. If the file wasn't flushed, it may leave any bytes.
    fn publish(&mut self, tag: Tag, slot: Slot) -> Result<(), Failed>
        requires { (state self.old).made tag.0 slot ≡ true }
        ensures does { Does (made_call tag slot Call.Publish) (Publishes tag.0 slot) (MayPublish tag.0 slot) (state self.old) (state self.new) result }
        ensures others { KeepsOthersMade tag.0 slot (state self.old) (state self.new) }
        ensures crash { AddsPublished tag.0 slot (state self.old) (state self.new) result };

    /// Flushes the slot's content and its directory entry to stable storage. After that a crash leaves this content.
    fn settle(&mut self, slot: Slot) -> Result<(), Failed>
        ensures does { Does (settling slot) Keeps Keeps (state self.old) (state self.new) result }
        ensures made { KeepsMade (state self.old) (state self.new) }
        ensures crash { Settles slot (state self.old) (state self.new) result };

    // If the contents are known, `made` is true exactly for the temporary files that exist. So `publish` can't empty a slot.
    ghost made_if_there: { (disk : Self) → IsMadeIfThere (state disk) };

    // What a crash may leave now is among what a crash may have left since any earlier moment.
    ghost moments: { (disk : Self) → HasMoments (state disk) };
}
