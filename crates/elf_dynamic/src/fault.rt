//! Why a file can't be read as an object.
ghost use Rattle.std.specs.Prelude.{◌≡◌};

use elf_headers::HeadFault;
use lib_types::{Defect, Failed, NoMemory};
use std::alloc::AllocError;

/// Why `object` returns no object.
#[derive(Clone, Copy, Debug, PartialEq, Eq)]
pub enum ObjectFault {
    /// The first defect of the file.
    Bad(Defect),
    /// The store failed, or doesn't hold the key.
    StoreFault,
    NoMemory,
}

/// Why `analyse` returns no analysis.
#[derive(Clone, Copy, Debug, PartialEq, Eq)]
pub enum AnalyseFault {
    /// The store failed, or doesn't hold the key.
    StoreFault,
    NoMemory,
}

impl From<HeadFault> for ObjectFault {
    ghost use Rattle.elf_dynamic.specs.Faults.{of_head};

    ghost from_gives = { λ fault e. e ≡ of_head fault };

    fn from(fault: HeadFault) -> Self {
        match fault {
            HeadFault::Bad(defect) => ObjectFault::Bad(defect),
            HeadFault::StoreFault => ObjectFault::StoreFault,
        }
    }
}

impl From<Failed> for ObjectFault {
    ghost use Rattle.elf_dynamic.specs.declared.fault.ObjectFault.TheVariants as faults;

    ghost from_gives = { λ _ e. e ≡ faults.StoreFault };

    fn from(_: Failed) -> Self {
        ObjectFault::StoreFault
    }
}

impl From<NoMemory> for ObjectFault {
    ghost use Rattle.elf_dynamic.specs.declared.fault.ObjectFault.TheVariants as faults;

    ghost from_gives = { λ _ e. e ≡ faults.NoMemory };

    fn from(_: NoMemory) -> Self {
        ObjectFault::NoMemory
    }
}

impl From<AnalyseFault> for ObjectFault {
    ghost use Rattle.elf_dynamic.specs.Faults.{of_reading};

    ghost from_gives = { λ fault e. e ≡ of_reading fault };

    fn from(fault: AnalyseFault) -> Self {
        match fault {
            AnalyseFault::StoreFault => ObjectFault::StoreFault,
            AnalyseFault::NoMemory => ObjectFault::NoMemory,
        }
    }
}

impl From<Failed> for AnalyseFault {
    ghost use Rattle.elf_dynamic.specs.declared.fault.AnalyseFault.TheVariants as faults;

    ghost from_gives = { λ _ e. e ≡ faults.StoreFault };

    fn from(_: Failed) -> Self {
        AnalyseFault::StoreFault
    }
}

impl From<AllocError> for AnalyseFault {
    ghost use Rattle.elf_dynamic.specs.declared.fault.AnalyseFault.TheVariants as faults;

    ghost from_gives = { λ _ e. e ≡ faults.NoMemory };

    fn from(_: AllocError) -> Self {
        AnalyseFault::NoMemory
    }
}
