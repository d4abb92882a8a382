//! Why the arguments are not a command.
ghost use Rattle.std.specs.Prelude.{◌≡◌};
ghost use Rattle.root_words.specs.declared.fault.RootWordsFault.TheVariants as faults;

use lib_types::{NoMemory, Text};
use std::alloc::AllocError;

/// Why an argument is rejected.
#[derive(Clone, Copy, Debug, PartialEq, Eq)]
pub enum Why {
    /// The usage text or the version, asked for with other arguments.
    NotAlone,
    /// `-l`.
    Link,
    /// A format of the cache other than `new`.
    Format,
    /// An option of an update together with `-p`.
    NotWithPrint,
    /// A value that is `-` alone.
    Dash,
    /// A directory without `-n`.
    NeedsOnly,
    /// `-n` without a directory.
    NoDirectory,
    /// No `-r`.
    NoRoot,
}

impl Why {
    /// What is wrong with the argument, and what to use in its place.
    pub fn advice(self) -> &'static str {
        match self {
            Why::NotAlone => "must be the only argument",
            Why::Link => "is not supported: use -n DIR, which makes the links of the directory DIR",
            Why::Format => "is not a supported format: use -c new, or leave -c out",
            Why::NotWithPrint => "cannot be used with -p, which takes only -r ROOT and -C CACHE",
            Why::Dash => "is not accepted as a value: use ./- for a file of this name",
            Why::NeedsOnly => {
                "is a directory without -n: use -n DIR to process only DIR, or list DIR in etc/ld.so.conf of ROOT"
            }
            Why::NoDirectory => "needs a directory: use -n DIR",
            Why::NoRoot =>
                "is missing: use -r ROOT for the image, -n DIR for one directory, or -p -C CACHE for a cache file",
        }
    }
}

/// An argument that is rejected.
#[derive(Drop)]
pub struct Rejection {
    /// The option as it is written in the usage text, or the value.
    pub argument: Text,
    pub why: Why,
}

/// Why the arguments are not a command.
#[derive(Drop)]
pub enum RootWordsFault {
    /// `clap` cannot read the arguments. Its line names the argument.
    Refused(Text),
    Rejected(Rejection),
    NoMemory,
}

impl From<NoMemory> for RootWordsFault {
    ghost from_gives = { λ _ e. e ≡ faults.NoMemory };

    fn from(_: NoMemory) -> Self {
        RootWordsFault::NoMemory
    }
}

impl From<AllocError> for RootWordsFault {
    ghost from_gives = { λ _ e. e ≡ faults.NoMemory };

    fn from(_: AllocError) -> Self {
        RootWordsFault::NoMemory
    }
}
