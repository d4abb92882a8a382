//! Why an interpreter can't be read.
ghost use Rattle.std.specs.Prelude.{◌≡◌};
ghost use Rattle.elf_interpreter.specs.declared.fault.InterpreterFault.TheVariants as faults;

use lib_types::{Failed, NoMemory};

/// Why `interpreter` has no answer.
#[derive(Clone, Copy, Debug, PartialEq, Eq)]
pub enum InterpreterFault {
    /// The store failed, or it doesn't hold the key.
    StoreFault,
    NoMemory,
}

impl From<Failed> for InterpreterFault {
    ghost from_gives = { λ _ e. e ≡ faults.StoreFault };

    fn from(_: Failed) -> Self {
        InterpreterFault::StoreFault
    }
}

impl From<NoMemory> for InterpreterFault {
    ghost from_gives = { λ _ e. e ≡ faults.NoMemory };

    fn from(_: NoMemory) -> Self {
        InterpreterFault::NoMemory
    }
}
