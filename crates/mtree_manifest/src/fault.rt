//! The errors of a manifest.
ghost use Rattle.std.specs.Prelude.{◌≡◌};

use lib_types::NoMemory;
use manifest_words::LineKind;
use std::alloc::{AllocError, AllocFailed};

/// The maximum size of a manifest's text: 64 MiB, about 80 bytes for each node that a tree may have.
pub const MANIFEST_MAX: usize = 1 << 26;

/// Why a manifest was not read. Lines are counted from 1, and a joined line has the number of its first physical line.
#[derive(Clone, Copy, Debug, PartialEq, Eq)]
pub enum ManifestFault {
    /// The text has more than `MANIFEST_MAX` bytes.
    TooLong { length: u64 },
    Bad { line: u64, kind: LineKind },
    /// The line would put a node below a file or a link, or a file or a link above a node.
    Clash { line: u64 },
    /// With the line's node, the tree would have too many nodes.
    TooMany { line: u64 },
    NoMemory,
}

/// Why a single line was not read.
#[derive(Clone, Copy, Debug, PartialEq, Eq)]
pub enum EntryLineFault {
    Bad(LineKind),
    NoMemory,
}

impl From<NoMemory> for ManifestFault {
    ghost use Rattle.mtree_manifest.specs.declared.fault.ManifestFault.TheVariants as faults;

    ghost from_gives = { λ _ e. e ≡ faults.NoMemory };

    fn from(_: NoMemory) -> Self {
        ManifestFault::NoMemory
    }
}

impl From<AllocError> for ManifestFault {
    ghost use Rattle.mtree_manifest.specs.declared.fault.ManifestFault.TheVariants as faults;

    ghost from_gives = { λ _ e. e ≡ faults.NoMemory };

    fn from(_: AllocError) -> Self {
        ManifestFault::NoMemory
    }
}

impl<T: Drop> From<AllocFailed<T>> for ManifestFault {
    ghost use Rattle.mtree_manifest.specs.declared.fault.ManifestFault.TheVariants as faults;

    ghost from_gives = { λ _ e. e ≡ faults.NoMemory };

    fn from(_: AllocFailed<T>) -> Self {
        ManifestFault::NoMemory
    }
}

impl From<NoMemory> for EntryLineFault {
    ghost use Rattle.mtree_manifest.specs.declared.fault.EntryLineFault.TheVariants as faults;

    ghost from_gives = { λ _ e. e ≡ faults.NoMemory };

    fn from(_: NoMemory) -> Self {
        EntryLineFault::NoMemory
    }
}
