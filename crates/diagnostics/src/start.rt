//! Why no command was run.
ghost use Rattle.std.specs.Prelude.{◌≡◌};
ghost use Rattle.diagnostics.specs.Start.{code_of};

use command_status::Status;
use lib_types::NoMemory;
use std::alloc::{AllocError, AllocFailed};
use std::io;

/// Why no command was run.
#[derive(Clone, Copy, Debug, PartialEq, Eq)]
pub enum StartFault {
    NoMemory,
    /// The arguments or a random number can't be read: an argument isn't UTF-8 text, for example.
    Other,
}

impl StartFault {
    /// The exit status for out of memory, or one that no command ends with.
    pub fn code(self) -> u8
        ensures { result ≡ code_of self }
    {
        match self {
            StartFault::NoMemory => Status::NoMemory.code(),
            StartFault::Other => 20,
        }
    }
}

impl From<NoMemory> for StartFault {
    ghost use Rattle.diagnostics.specs.declared.start.StartFault.TheVariants as start_fault;

    ghost from_gives = { λ _ fault. fault ≡ start_fault.NoMemory };

    fn from(_: NoMemory) -> Self {
        StartFault::NoMemory
    }
}

impl From<AllocError> for StartFault {
    ghost use Rattle.diagnostics.specs.declared.start.StartFault.TheVariants as start_fault;

    ghost from_gives = { λ _ fault. fault ≡ start_fault.NoMemory };

    fn from(_: AllocError) -> Self {
        StartFault::NoMemory
    }
}

impl<T: Drop> From<AllocFailed<T>> for StartFault {
    ghost use Rattle.diagnostics.specs.declared.start.StartFault.TheVariants as start_fault;

    ghost from_gives = { λ _ fault. fault ≡ start_fault.NoMemory };

    fn from(_: AllocFailed<T>) -> Self {
        StartFault::NoMemory
    }
}

impl From<io::Error> for StartFault {
    fn from(error: io::Error) -> Self {
        if error.kind() == io::ErrorKind::OutOfMemory {
            StartFault::NoMemory
        } else {
            StartFault::Other
        }
    }
}
