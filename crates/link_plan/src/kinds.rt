//! The symlinks planned for an image, and sonames with their search directory.
use lib_types::{Seq, Text};

/// A planned symlink.
#[derive(Drop)]
pub struct Planned {
    /// The number of the search directory in which the link is.
    pub place: u32,
    pub soname: Text,
    /// The target of the link: the name of a file in the same directory.
    pub file: Text,
    /// The path of the link in the tree; none of its directories is a link.
    pub path: Text,
}

/// The planned links, ordered by search directory and then by the bytes of their sonames.
pub type Plan = Seq<Planned>;

/// A soname in a search directory.
#[derive(Drop)]
pub struct Mark {
    /// The number of the search directory.
    pub place: u32,
    pub soname: Text,
}

/// Sonames in search directories, ordered by search directory and then by the bytes of the sonames.
pub type Marks = Seq<Mark>;
