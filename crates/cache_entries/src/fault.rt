//! Why the entries of an image can't be listed.
ghost use Rattle.std.specs.Prelude.{◌≡◌};

use lib_types::NoMemory;

/// Why the entries of an image can't be listed.
#[derive(Clone, Copy, Debug, PartialEq, Eq)]
pub enum EntryFault {
    /// There are more entries than a cache may have.
    TooMany { count: u64 },
    NoMemory,
}

impl From<NoMemory> for EntryFault {
    ghost use Rattle.cache_entries.specs.declared.fault.EntryFault.TheVariants as faults;

    ghost from_gives = { λ _ e. e ≡ faults.NoMemory };

    fn from(_: NoMemory) -> Self {
        EntryFault::NoMemory
    }
}
