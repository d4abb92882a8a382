//! The limits of a cache.

/// The maximum number of entries in a cache. It is larger than the caches of large systems.
pub const ENTRIES_MAX: usize = 1 << 18;

/// The strings of a cache must have fewer bytes than this in total. Then each offset in the file fits in 4 bytes.
pub const STRINGS_LIMIT: usize = 3 << 29;

/// The maximum length of a path in bytes. A path is a directory's normalized path and a file name. With this limit the strings of
/// `ENTRIES_MAX` entries have fewer than `STRINGS_LIMIT` bytes, so that all offsets in a cache fit in 4 bytes.
pub const STRING_MAX: usize = 4700;
