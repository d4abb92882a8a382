//! Why the conf file isn't read.
ghost use Rattle.std.specs.Prelude.{◌≡◌};
ghost use Rattle.ldso_conf.specs.Endings.{fault_of};
ghost use Rattle.ldso_conf.specs.declared.fault.ConfFault.TheVariants as conf_faults;
ghost use Rattle.ldso_conf.specs.declared.fault.ReadFault.TheVariants as faults;

use conf_views::ViewFault;
use lib_types::{Failed, NoMemory};
use std::alloc::{AllocError, AllocFailed};

/// Why the conf file isn't read.
#[derive(Clone, Copy, Debug, PartialEq, Eq)]
pub enum ConfFault {
    /// The content of a conf file can't be read.
    StoreFault,
    NoMemory,
}

impl From<NoMemory> for ConfFault {
    ghost from_gives = { λ _ e. e ≡ conf_faults.NoMemory };

    fn from(_: NoMemory) -> Self {
        ConfFault::NoMemory
    }
}

/// Why the conf file isn't read in a view of a tree.
#[derive(Clone, Copy, Debug, PartialEq, Eq)]
pub enum ReadFault {
    /// The content of a conf file can't be read.
    StoreFault,
    /// A path can't be looked up, or a directory can't be listed. The view knows why.
    Unseen,
    NoMemory,
}

impl From<Failed> for ReadFault {
    ghost from_gives = { λ _ e. e ≡ faults.StoreFault };

    fn from(_: Failed) -> Self {
        ReadFault::StoreFault
    }
}

impl From<NoMemory> for ReadFault {
    ghost from_gives = { λ _ e. e ≡ faults.NoMemory };

    fn from(_: NoMemory) -> Self {
        ReadFault::NoMemory
    }
}

impl From<AllocError> for ReadFault {
    ghost from_gives = { λ _ e. e ≡ faults.NoMemory };

    fn from(_: AllocError) -> Self {
        ReadFault::NoMemory
    }
}

impl From<ViewFault> for ReadFault {
    ghost from_gives = { λ fault e. e ≡ fault_of fault };

    fn from(fault: ViewFault) -> Self {
        match fault {
            ViewFault::Unseen => ReadFault::Unseen,
            ViewFault::NoMemory => ReadFault::NoMemory,
        }
    }
}
