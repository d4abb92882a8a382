//! Why a file can't be read as an auxiliary cache.
ghost use Rattle.std.specs.Prelude.{◌≡◌};

use lib_types::NoMemory;
use std::alloc::{AllocError, AllocFailed};

/// Why no stamps were read.
#[derive(Clone, Copy, Debug, PartialEq, Eq)]
pub enum AuxFault {
    /// The file isn't a valid auxiliary cache. `at` is the offset of the first corrupt part: 0 if the file is too short or has another
    /// magic, 24 for the numbers in the header, otherwise the offset of the strings or of a record.
    Damaged { at: u64 },
    NoMemory,
}

impl From<NoMemory> for AuxFault {
    ghost use Rattle.aux_cache.specs.declared.fault.AuxFault.TheVariants as faults;

    ghost from_gives = { λ _ e. e ≡ faults.NoMemory };

    fn from(_: NoMemory) -> Self {
        AuxFault::NoMemory
    }
}

impl From<AllocError> for AuxFault {
    ghost use Rattle.aux_cache.specs.declared.fault.AuxFault.TheVariants as faults;

    ghost from_gives = { λ _ e. e ≡ faults.NoMemory };

    fn from(_: AllocError) -> Self {
        AuxFault::NoMemory
    }
}

impl<T: Drop> From<AllocFailed<T>> for AuxFault {
    ghost use Rattle.aux_cache.specs.declared.fault.AuxFault.TheVariants as faults;

    ghost from_gives = { λ _ e. e ≡ faults.NoMemory };

    fn from(_: AllocFailed<T>) -> Self {
        AuxFault::NoMemory
    }
}
