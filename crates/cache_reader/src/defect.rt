//! Why a file can't be read as a cache.

/// The first defect of a cache. The numbers are the values of the field in the file. Entries are counted from 0.
#[derive(Clone, Copy, Debug, PartialEq, Eq)]
pub enum CacheDefect {
    /// A file of the older cache format.
    OldFormat,
    /// The file is shorter than a header.
    Short { len: u64 },
    /// The magic or the version is different.
    BadMagic,
    /// The file is big-endian, or its flags are invalid.
    BadEndian { flags: u64 },
    /// The entries and the strings don't fit in the file.
    EntriesOutside { nlibs: u64 },
    /// An offset of the entry is past the end of the file.
    StringOutside { entry: u64 },
    /// A string of the entry has no terminating NUL.
    NoNul { entry: u64 },
    /// The extension directory, one of its sections, or the offsets of the hwcaps names are malformed.
    BadExtension { offset: u64 },
    /// The entry's hwcap has an index without a hwcaps name.
    BadHwcap { entry: u64 },
    /// The names of the entries aren't in the loader's order. `parse` doesn't check this.
    Unsorted { entry: u64 },
}
