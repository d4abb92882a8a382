//! Why a view of a tree doesn't answer.
ghost use Rattle.std.specs.Prelude.{◌≡◌};
ghost use Rattle.conf_views.specs.declared.fault.ViewFault.TheVariants as faults;

use lib_types::NoMemory;
use std::alloc::AllocError;

/// Why a view of a tree doesn't answer.
#[derive(Clone, Copy, Debug, PartialEq, Eq)]
pub enum ViewFault {
    /// A path can't be looked up, or a directory can't be listed. The view knows why.
    Unseen,
    NoMemory,
}

impl From<NoMemory> for ViewFault {
    ghost from_gives = { λ _ e. e ≡ faults.NoMemory };

    fn from(_: NoMemory) -> Self {
        ViewFault::NoMemory
    }
}

impl From<AllocError> for ViewFault {
    ghost from_gives = { λ _ e. e ≡ faults.NoMemory };

    fn from(_: AllocError) -> Self {
        ViewFault::NoMemory
    }
}
