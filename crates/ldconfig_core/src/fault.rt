//! Why an image isn't updated.
ghost use Rattle.std.specs.Prelude.{◌≡◌};
ghost use Rattle.ldconfig_core.specs.Faults.{of_entries, of_finding};
ghost use Rattle.ldconfig_core.specs.declared.fault.UpdateFault.TheVariants as update_faults;

use atomic_replace::DiskFault;
use cache_entries::EntryFault;
use lib_types::NoMemory;
use library_search::FindFault;
use std::alloc::{AllocError, AllocFailed};
use thiserror::Error;

/// Why an image isn't updated.
#[derive(Clone, Copy, Debug, PartialEq, Eq, Error)]
pub enum UpdateFault {
    /// A conf file or a library file can't be read.
    #[error("the content of a file can't be read")]
    StoreFault,
    /// The tree with the planned links has too many nodes, or its manifest has too many bytes. If there are too many nodes, `bytes`
    /// is 0.
    #[error("the image is too large with its planned links")]
    TooLarge { nodes: u64, bytes: u64 },
    /// The cache would have too many entries.
    #[error("the cache has too many entries")]
    TooMany { count: u64 },
    /// A writing call failed.
    #[error("a slot of the disk can't be written")]
    DiskFault(DiskFault),
    #[error("out of memory")]
    NoMemory,
}

impl From<NoMemory> for UpdateFault {
    ghost from_gives = { λ _ e. e ≡ update_faults.NoMemory };

    fn from(_: NoMemory) -> Self {
        UpdateFault::NoMemory
    }
}

impl From<AllocError> for UpdateFault {
    ghost from_gives = { λ _ e. e ≡ update_faults.NoMemory };

    fn from(_: AllocError) -> Self {
        UpdateFault::NoMemory
    }
}

impl<T: Drop> From<AllocFailed<T>> for UpdateFault {
    ghost from_gives = { λ _ e. e ≡ update_faults.NoMemory };

    fn from(_: AllocFailed<T>) -> Self {
        UpdateFault::NoMemory
    }
}

impl From<FindFault> for UpdateFault {
    ghost from_gives = { λ fault e. e ≡ of_finding fault };

    fn from(fault: FindFault) -> Self {
        match fault {
            FindFault::StoreFault => UpdateFault::StoreFault,
            FindFault::TooLarge { nodes } => UpdateFault::TooLarge { nodes, bytes: 0 },
            FindFault::NoMemory => UpdateFault::NoMemory,
        }
    }
}

impl From<EntryFault> for UpdateFault {
    ghost from_gives = { λ fault e. e ≡ of_entries fault };

    fn from(fault: EntryFault) -> Self {
        match fault {
            EntryFault::TooMany { count } => UpdateFault::TooMany { count },
            EntryFault::NoMemory => UpdateFault::NoMemory,
        }
    }
}
