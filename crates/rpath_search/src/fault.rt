//! Why a search fails.
ghost use Rattle.std.specs.Prelude.{◌≡◌};
ghost use Rattle.rpath_search.specs.declared.fault.SearchFault.TheVariants as faults;

use lib_types::NoMemory;

/// Why a search fails.
#[derive(Clone, Copy, Debug, PartialEq, Eq)]
pub enum SearchFault {
    /// The store failed, or it doesn't hold the content of a file to which a path leads.
    StoreFault,
    NoMemory,
}

impl From<NoMemory> for SearchFault {
    ghost from_gives = { λ _ e. e ≡ faults.NoMemory };

    fn from(_: NoMemory) -> Self {
        SearchFault::NoMemory
    }
}
