//! Why an image can't be built, or its results can't be computed.
ghost use Rattle.std.specs.Prelude.{◌≡◌};
ghost use Rattle.soname_links_tests.specs.declared.fault.ImageFault.TheVariants as faults;

use lib_types::NoMemory;
use soname_links::{ApplyFault, EntryFault};

/// Why an image can't be built, or its results can't be computed.
#[derive(Clone, Copy, Debug, PartialEq, Eq)]
pub(crate) enum ImageFault {
    /// It has an invalid path, node or soname, or two nodes that clash.
    NoImage,
    /// Why its links can't be put.
    Apply(ApplyFault),
    /// Why its entries can't be computed.
    Entries(EntryFault),
    NoMemory,
}

impl From<NoMemory> for ImageFault {
    ghost from_gives = { λ _ e. e ≡ faults.NoMemory };

    fn from(_: NoMemory) -> Self {
        ImageFault::NoMemory
    }
}

impl From<ApplyFault> for ImageFault {
    ghost from_gives = { λ fault e. e ≡ faults.Apply fault };

    fn from(fault: ApplyFault) -> Self {
        ImageFault::Apply(fault)
    }
}

impl From<EntryFault> for ImageFault {
    ghost from_gives = { λ fault e. e ≡ faults.Entries fault };

    fn from(fault: EntryFault) -> Self {
        ImageFault::Entries(fault)
    }
}
