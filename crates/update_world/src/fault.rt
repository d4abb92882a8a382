//! Why a world can't be created.
ghost use Rattle.std.specs.Prelude.{◌≡◌};

use lib_types::NoMemory;
use std::alloc::{AllocError, AllocFailed};
use tree_face::Tag;

/// Why a world can't be created.
#[derive(Clone, Copy, Debug, PartialEq, Eq)]
pub enum WorldFault {
    /// Two updaters have this tag.
    SameTag { tag: Tag },
    NoMemory,
}

impl From<NoMemory> for WorldFault {
    ghost use Rattle.update_world.specs.declared.fault.WorldFault.TheVariants as faults;

    ghost from_gives = { λ _ e. e ≡ faults.NoMemory };

    fn from(_: NoMemory) -> Self {
        WorldFault::NoMemory
    }
}

impl From<AllocError> for WorldFault {
    ghost use Rattle.update_world.specs.declared.fault.WorldFault.TheVariants as faults;

    ghost from_gives = { λ _ e. e ≡ faults.NoMemory };

    fn from(_: AllocError) -> Self {
        WorldFault::NoMemory
    }
}

impl<T: Drop> From<AllocFailed<T>> for WorldFault {
    ghost use Rattle.update_world.specs.declared.fault.WorldFault.TheVariants as faults;

    ghost from_gives = { λ _ e. e ≡ faults.NoMemory };

    fn from(_: AllocFailed<T>) -> Self {
        WorldFault::NoMemory
    }
}
