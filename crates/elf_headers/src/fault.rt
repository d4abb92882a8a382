//! Why a header can't be read.
use lib_types::{Defect, Failed};

/// Why `head` returns no header.
#[derive(Clone, Copy, Debug, PartialEq, Eq)]
pub enum HeadFault {
    /// The first defect of the header.
    Bad(Defect),
    /// The store failed, or it doesn't hold the key.
    StoreFault,
}

impl From<Failed> for HeadFault {
    ghost use Rattle.std.specs.Prelude.{◌≡◌};
    ghost use Rattle.elf_headers.specs.declared.fault.HeadFault.TheVariants as faults;

    ghost from_gives = { λ _ e. e ≡ faults.StoreFault };

    fn from(_: Failed) -> Self {
        HeadFault::StoreFault
    }
}
