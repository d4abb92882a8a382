//! The search directories for libraries.
use lib_types::{NAME_MAX, Seq, Text, Texts};
use tree_face::PATH_MAX;

/// The greatest length of a search directory's path in bytes: a directory of the conf file, `/glibc-hwcaps/` and a name.
pub const SPELLED_MAX: usize = PATH_MAX + 14 + NAME_MAX;

/// Which directories are searched: those of a conf file, followed by built-in directories.
#[derive(Drop)]
pub enum Scope {
    /// The directories of `/etc/ld.so.conf`, then those that the loader searches by default.
    Image,
    /// The directories of this conf file (`/etc/ld.so.conf` if None), then those that the loader searches by default, then
    /// Debian's directories for each ABI, then those of RISC-V's loader.
    Root { conf: Option<Text> },
    /// Those of the command line alone.
    Only { dirs: Texts },
}

/// One search directory. Its number is its index in the list.
#[derive(Drop)]
pub struct Place {
    /// The path as written in the conf file or as built in.
    pub spelled: Text,
    /// The resolved path, without symlinks.
    pub real: Text,
    /// The name of the `glibc-hwcaps` subdirectory, if it is one.
    pub cap: Option<Text>,
}

/// A list of search directories.
pub type Places = Seq<Place>;

/// The search directories, and the directories of the conf file that don't resolve to a directory.
#[derive(Drop)]
pub struct Dirs {
    pub places: Places,
    pub absent: Texts,
}
