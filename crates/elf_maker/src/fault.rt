//! Why a file can't be generated.
ghost use Rattle.std.specs.Prelude.{◌≡◌};

use lib_types::NoMemory;
use std::alloc::AllocError;

/// Why `make` returns no file.
#[derive(Clone, Copy, Debug, PartialEq, Eq)]
pub enum MakeFault {
    /// The file would be longer than `FILE_MAX` bytes.
    TooLong,
    NoMemory,
}

impl From<NoMemory> for MakeFault {
    ghost use Rattle.elf_maker.specs.declared.fault.MakeFault.TheVariants as faults;

    ghost from_gives = { λ _ e. e ≡ faults.NoMemory };

    fn from(_: NoMemory) -> Self {
        MakeFault::NoMemory
    }
}

impl From<AllocError> for MakeFault {
    ghost use Rattle.elf_maker.specs.declared.fault.MakeFault.TheVariants as faults;

    ghost from_gives = { λ _ e. e ≡ faults.NoMemory };

    fn from(_: AllocError) -> Self {
        MakeFault::NoMemory
    }
}
