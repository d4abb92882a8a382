//! Why the search of an image fails.
ghost use Rattle.std.specs.Prelude.{◌≡◌};
ghost use Rattle.library_search.specs.Faults.{of_apply, of_conf, of_reading};
ghost use Rattle.library_search.specs.declared.fault.FindFault.TheVariants as faults;

use elf_dynamic::AnalyseFault;
use ldso_conf::ConfFault;
use lib_types::NoMemory;
use soname_links::ApplyFault;

/// Why the search of an image fails.
#[derive(Clone, Copy, Debug, PartialEq, Eq)]
pub enum FindFault {
    /// A conf file or a library file can't be read.
    StoreFault,
    /// The tree with the planned links would have too many nodes.
    TooLarge { nodes: u64 },
    NoMemory,
}

impl From<NoMemory> for FindFault {
    ghost from_gives = { λ _ e. e ≡ faults.NoMemory };

    fn from(_: NoMemory) -> Self {
        FindFault::NoMemory
    }
}

impl From<ConfFault> for FindFault {
    ghost from_gives = { λ fault e. e ≡ of_conf fault };

    fn from(fault: ConfFault) -> Self {
        match fault {
            ConfFault::StoreFault => FindFault::StoreFault,
            ConfFault::NoMemory => FindFault::NoMemory,
        }
    }
}

impl From<AnalyseFault> for FindFault {
    ghost from_gives = { λ fault e. e ≡ of_reading fault };

    fn from(fault: AnalyseFault) -> Self {
        match fault {
            AnalyseFault::StoreFault => FindFault::StoreFault,
            AnalyseFault::NoMemory => FindFault::NoMemory,
        }
    }
}

impl From<ApplyFault> for FindFault {
    ghost from_gives = { λ fault e. e ≡ of_apply fault };

    fn from(fault: ApplyFault) -> Self {
        match fault {
            ApplyFault::TooLarge { nodes } => FindFault::TooLarge { nodes },
            ApplyFault::NoMemory => FindFault::NoMemory,
        }
    }
}
