//! The links planned for an image, and the sonames to report.
ghost use Rattle.std.specs.Prelude.{◌≡◌};

pub use cache_entries::EntryFault;
use lib_types::NoMemory;
use link_plan::{Marks, Plan};
use place_libraries::PlaceBests;

/// The links planned for an image's search directories, and the sonames to report.
#[derive(Drop)]
pub struct Survey {
    pub plan: Plan,
    /// The sonames for which a link is wanted, but can't be created.
    pub blocked: Marks,
    /// The sonames that have different ABIs in one search directory.
    pub mixed: Marks,
    /// The best library of each soname in each search directory.
    pub bests: PlaceBests,
}

/// Why not all links were put into a tree.
#[derive(Clone, Copy, Debug, PartialEq, Eq)]
pub enum ApplyFault {
    /// The tree would have too many nodes.
    TooLarge { nodes: u64 },
    NoMemory,
}

impl From<NoMemory> for ApplyFault {
    ghost use Rattle.soname_links.specs.declared.kinds.ApplyFault.TheVariants as faults;

    ghost from_gives = { λ _ e. e ≡ faults.NoMemory };

    fn from(_: NoMemory) -> Self {
        ApplyFault::NoMemory
    }
}
