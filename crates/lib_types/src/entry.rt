//! The entries of a cache.
use crate::{Abi, Seq, Text};

/// One soname that can be looked up, and the path that it leads to.
#[derive(Drop)]
pub struct Entry {
    pub soname: Text,
    /// The subdirectory of `glibc-hwcaps` that contains the library, if one does.
    pub cap: Option<Text>,
    pub path: Text,
    /// The index of the directory in the list of search directories, from 0.
    pub place: u32,
    pub abi: Abi,
}

/// A list of entries.
pub type Entries = Seq<Entry>;
