//! Why the search of a directory fails.
ghost use Rattle.std.specs.Prelude.{◌≡◌};
ghost use Rattle.library_search.specs.declared.fault.FindFault.TheVariants as finding;
ghost use Rattle.looked_search.specs.Faults.{of_look};
ghost use Rattle.looked_search.specs.declared.fault.SearchFault.TheVariants as faults;

use lib_types::NoMemory;
use library_search::FindFault;
use looked_conf::LookFault;
use root_tree::TreeRead;

/// Why the search of a directory fails.
#[derive(Drop)]
pub enum SearchFault {
    /// A path can't be looked up, or a directory can't be listed.
    Tree(TreeRead),
    /// A file can't be read, the planned links don't fit into the part that was looked at, or memory is out.
    Find(FindFault),
}

impl From<NoMemory> for SearchFault {
    ghost from_gives = { λ _ e. e ≡ faults.Find finding.NoMemory };

    fn from(_: NoMemory) -> Self {
        SearchFault::Find(FindFault::NoMemory)
    }
}

impl From<TreeRead> for SearchFault {
    ghost from_gives = { λ fault e. e ≡ faults.Tree fault };

    fn from(fault: TreeRead) -> Self {
        SearchFault::Tree(fault)
    }
}

impl From<FindFault> for SearchFault {
    ghost from_gives = { λ fault e. e ≡ faults.Find fault };

    fn from(fault: FindFault) -> Self {
        SearchFault::Find(fault)
    }
}

impl From<LookFault> for SearchFault {
    ghost from_gives = { λ fault e. e ≡ of_look fault };

    fn from(fault: LookFault) -> Self {
        match fault {
            LookFault::Tree(why) => SearchFault::Tree(why),
            LookFault::StoreFault => SearchFault::Find(FindFault::StoreFault),
            LookFault::NoMemory => SearchFault::Find(FindFault::NoMemory),
        }
    }
}
