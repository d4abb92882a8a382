//! The existing file of a slot, and what the new file takes over from it.
ghost use Rattle.std.specs.Prelude.{◌≡◌, ◌↔◌, ◌≢◌, Some, IfSome, IsSome, IsTrue, bit_and};
ghost use Rattle.std.specs.Fs.{IsFile, file_type, metadata_len, metadata_mode};
ghost use Rattle.device_rules.specs.Folder.{IsAsRead, largest, length_to_read, mode_of, owner_to_give};

use cache_layout::{ENTRIES_MAX, ENTRY_SIZE, STRINGS_LIMIT};
use mtree_manifest::MANIFEST_MAX;
use std::fs::Metadata;
use std::os::unix::fs::MetadataExt;
use tree_face::Slot;

/// The identity of a file, as the system tells files apart.
#[derive(Clone, Copy, Debug, PartialEq, Eq)]
pub struct Identity {
    pub device: u64,
    pub inode: u64,
}

impl Identity {
    /// Whether this is the same file.
    pub fn is(self, other: Identity) -> bool
        ensures { IsTrue result ↔ self ≡ other }
    {
        self == other
    }
}

/// The identity of a file, and when its content or its name last changed. Times are the bits of signed numbers: seconds since 1970, and
/// nanoseconds.
#[derive(Clone, Copy, Debug, PartialEq, Eq)]
pub struct Stamp {
    pub device: u64,
    pub inode: u64,
    pub size: u64,
    pub modified: u64,
    pub modified_nanos: u64,
    pub changed: u64,
    pub changed_nanos: u64,
}

impl Stamp {
    /// The identity of the file.
    pub fn identity(self) -> Identity
        ensures device { result.device ≡ self.device }
        ensures inode { result.inode ≡ self.inode }
    {
        Identity {
            device: self.device,
            inode: self.inode,
        }
    }
}

/// The owner of a file.
#[derive(Clone, Copy, Debug, PartialEq, Eq)]
pub struct Owner {
    pub user: u32,
    pub group: u32,
}

/// The numbers of a file that contracts don't see in the library's `Metadata`. Times are the bits of signed numbers.
#[derive(Clone, Copy, Debug, PartialEq, Eq)]
pub struct Numbers {
    pub device: u64,
    pub inode: u64,
    pub user: u32,
    pub group: u32,
    pub modified: u64,
    pub modified_nanos: u64,
    pub changed: u64,
    pub changed_nanos: u64,
}

/// The numbers of a file, each under its name. Only this function takes them out of what the system returned.
pub fn numbers_of<M: MetadataExt>(found: &M) -> Numbers {
    Numbers {
        device: found.dev(),
        inode: found.ino(),
        user: found.uid(),
        group: found.gid(),
        modified: found.mtime().cast_unsigned(),
        modified_nanos: found.mtime_nsec().cast_unsigned(),
        changed: found.ctime().cast_unsigned(),
        changed_nanos: found.ctime_nsec().cast_unsigned(),
    }
}

impl Numbers {
    /// The identity of the file.
    pub fn identity(self) -> Identity
        ensures device { result.device ≡ self.device }
        ensures inode { result.inode ≡ self.inode }
    {
        Identity {
            device: self.device,
            inode: self.inode,
        }
    }

    /// The owner of the file.
    pub fn owner(self) -> Owner
        ensures user { result.user ≡ self.user }
        ensures group { result.group ≡ self.group }
    {
        Owner {
            user: self.user,
            group: self.group,
        }
    }

    /// The stamp of the file, which has this length.
    pub fn stamp(self, size: u64) -> Stamp
        ensures device { result.device ≡ self.device }
        ensures inode { result.inode ≡ self.inode }
        ensures size { result.size ≡ size }
        ensures modified { result.modified ≡ self.modified }
        ensures modified_nanos { result.modified_nanos ≡ self.modified_nanos }
        ensures changed { result.changed ≡ self.changed }
        ensures changed_nanos { result.changed_nanos ≡ self.changed_nanos }
    {
        Stamp {
            device: self.device,
            inode: self.inode,
            size,
            modified: self.modified,
            modified_nanos: self.modified_nanos,
            changed: self.changed,
            changed_nanos: self.changed_nanos,
        }
    }
}

/// What a new file takes over from the regular file that it replaces.
#[derive(Clone, Copy, Debug)]
pub struct Existing {
    pub mode: u32,
    pub owner: Owner,
}

/// What a new file takes over from this one. A file of another kind leaves nothing.
pub fn existing_of(found: &Metadata) -> Option<Existing>
    ensures file { IsSome result ↔ IsFile (file_type found.now) }
    ensures mode { IfSome result (λ existing. existing.mode ≡ metadata_mode found.now) }
{
    if found.is_file() {
        Some(Existing {
            mode: found.mode(),
            owner: owner_of(found),
        })
    } else {
        None
    }
}

pub fn identity_of(found: &Metadata) -> Identity {
    numbers_of(found).identity()
}

pub fn stamp_of(found: &Metadata) -> Stamp
    ensures size { result.size ≡ metadata_len found.now }
{
    numbers_of(found).stamp(found.len())
}

pub fn owner_of(found: &Metadata) -> Owner {
    numbers_of(found).owner()
}

/// What was opened at a path, beside the file that was looked at there before.
#[derive(Clone, Copy, Debug, PartialEq, Eq)]
pub enum Opened {
    /// The same file.
    Same,
    /// Another regular file, which replaced it.
    OtherFile,
    /// Something else, which replaced it.
    Other,
}

/// Compares what was opened with what was looked at.
pub fn opened_as(looked_at: Identity, opened: Identity, is_file: bool) -> Opened
    ensures same { result ≡ Opened.Same ↔ opened ≡ looked_at }
    ensures file { result ≡ Opened.OtherFile ↔ ((opened ≢ looked_at) × IsTrue is_file) }
{
    if opened.is(looked_at) {
        Opened::Same
    } else if is_file {
        Opened::OtherFile
    } else {
        Opened::Other
    }
}

/// Whether the slot's file is still the one that was read, if it was read. A missing file has no stamp.
pub fn is_as_read(read: Option<Option<Stamp>>, now: Option<Stamp>) -> bool
    ensures { IsTrue result ↔ IsAsRead read now }
{
    match read {
        None => true,
        Some(None) => now.is_none(),
        Some(Some(read)) => is_stamp(now, read),
    }
}

fn is_stamp(now: Option<Stamp>, read: Stamp) -> bool
    ensures { IsTrue result ↔ now ≡ Some read }
{
    match now {
        Some(now) => is_same(now, read),
        None => false,
    }
}

fn is_same(now: Stamp, read: Stamp) -> bool
    ensures { IsTrue result ↔ now ≡ read }
{
    now == read
}

/// The length in bytes above which a cache isn't read: the most entries and strings, and 64 KiB for the header and the extension.
pub const CACHE_MAX: u64 = ENTRIES_MAX as u64 * ENTRY_SIZE as u64
    + STRINGS_LIMIT as u64
    + (1 << 16);

/// The length in bytes above which a manifest or an auxiliary cache isn't read.
pub const LENGTH_MAX: u64 = 1 << 31;

/// The length above which a slot's file isn't read.
pub fn largest(slot: Slot) -> u64
    ensures { result ≡ largest slot }
{
    match slot {
        Slot::Cache => CACHE_MAX,
        Slot::Manifest | Slot::Aux => LENGTH_MAX,
    }
}

// One byte more than a manifest may have is enough to show that it is too long.
const TOO_LONG_MANIFEST: u64 = MANIFEST_MAX as u64 + 1;

// This number of first bytes is enough to show that a file is not a cache.
const NO_CACHE: u64 = 64;

/// The number of bytes to read of a file of this length. A file that doesn't begin like a cache isn't read as one.
pub fn length_to_read(slot: Slot, is_cache: bool, size: u64) -> Option<u64>
    ensures { result ≡ length_to_read slot is_cache size }
{
    if size > largest(slot) {
        return None;
    }
    match slot {
        Slot::Manifest => Some(size.min(TOO_LONG_MANIFEST)),
        Slot::Cache if !is_cache => Some(size.min(NO_CACHE)),
        Slot::Cache | Slot::Aux => Some(size),
    }
}

// The permission bits of a mode.
const PERMISSIONS: u32 = 0o777;

/// The mode of a slot's new file, if it replaces none.
pub const USUAL_MODE: u32 = 0o644;

/// The mode of a slot's new file, given the mode of the file that it replaces. Everybody may read the cache, whatever the umask is.
pub fn mode_of(slot: Slot, existing: Option<u32>) -> u32
    ensures { result ≡ mode_of slot existing }
{
    match (slot, existing) {
        (Slot::Cache, _) | (_, None) => USUAL_MODE,
        (Slot::Manifest | Slot::Aux, Some(mode)) => mode & PERMISSIONS,
    }
}

/// The mode of a new file while it is written: only its owner may write it.
pub fn mode_until_whole(mode: u32) -> u32
    ensures { result ≡ bit_and mode 0o755 }
{
    mode & 0o755
}

/// The owner to give to a new file, if any. Only root can give files away.
pub fn owner_to_give(made: Owner, existing: Option<Owner>) -> Option<Owner>
    ensures { result ≡ owner_to_give made existing }
{
    match existing {
        Some(existing) if made.user == 0 => Some(existing),
        _ => None,
    }
}
