//! The result of reading the conf file.
use lib_types::{Seq, Text, Texts};

/// What can't be used of a conf file.
#[derive(Clone, Copy, Debug, PartialEq, Eq)]
pub enum ConfKind {
    /// An included path leads to a directory.
    NotFile,
    /// A file was read before.
    Repeated,
    /// Included files are nested too deeply.
    TooDeep,
    /// A file is larger than a conf file may be.
    TooLarge,
    /// A directory doesn't begin with a slash.
    Relative,
    /// A directory's line has a `=`. The text before the `=` is used.
    Equals,
    /// A line has the keyword `hwcap`, which is no longer used.
    Hwcap,
    /// A directory's path is too long.
    LongPath,
}

/// One thing that can't be used: the path of a file as written, or the text of a directory.
#[derive(Drop)]
pub struct ConfReport {
    pub place: Text,
    pub kind: ConfKind,
    /// The file and line that it is about, unless it is about a whole file.
    pub origin: Option<Origin>,
}

/// A list of reports.
pub type ConfReports = Seq<ConfReport>;

/// Where a directory is named: the path of the conf file as written, and the line number, starting at 1. A directory of the command line
/// is named in the file `<cmdline>`, line 0.
#[derive(Drop)]
pub struct Origin {
    pub file: Text,
    pub line: u32,
}

/// A list of origins.
pub type Origins = Seq<Origin>;

/// The directories of the conf file, in the order of the lines.
#[derive(Drop)]
pub struct Conf {
    pub dirs: Texts,
    /// The file and line that name each directory.
    pub origins: Origins,
    pub reports: ConfReports,
    /// How many conf files were opened, including those that are too large.
    pub files: u32,
}
