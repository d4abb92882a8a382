//! The counts of the devices over real directories and streams.
ghost use Rattle.std.specs.Prelude.{◌≡◌, None};
ghost use Rattle.lib_types.specs.Counts.{raised};

/// The counts of a store.
#[derive(Clone, Copy, Drop)]
pub struct StoreCounts {
    /// The length of the open file.
    pub size: Option<u64>,
    pub faults: u64,
    pub begun: u64,
    pub taken: u64,
}

/// The count plus one, saturating at its largest value.
pub fn one_more(count: u64) -> u64
    ensures { result ≡ raised count 1 }
{
    count.saturating_add(1)
}
