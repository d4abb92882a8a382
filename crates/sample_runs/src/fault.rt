//! Why a sample has no text.
ghost use Rattle.std.specs.Prelude.{◌≡◌};
ghost use Rattle.sample_runs.specs.Faults.{of_sample, of_update};

use command_status::Status;
use ldconfig_core::UpdateFault;

/// Why a sample has no text.
#[derive(Clone, Copy, Debug, PartialEq, Eq)]
pub enum SampleFault {
    /// The store failed, or doesn't hold a library of the sample.
    StoreFault,
    /// The disk failed.
    DiskFault,
    NoMemory,
}

impl From<UpdateFault> for SampleFault {
    ghost from_gives = { λ update fault. fault ≡ of_update update };

    // No image of a sample is too large, so `TooLarge` and `TooMany` can only mean out of memory.
    fn from(fault: UpdateFault) -> Self {
        match fault {
            UpdateFault::StoreFault => SampleFault::StoreFault,
            UpdateFault::DiskFault(_) => SampleFault::DiskFault,
            UpdateFault::TooLarge { .. } | UpdateFault::TooMany { .. } | UpdateFault::NoMemory => {
                SampleFault::NoMemory
            }
        }
    }
}

impl From<SampleFault> for Status {
    ghost from_gives = { λ fault status. status ≡ of_sample fault };

    fn from(fault: SampleFault) -> Self {
        match fault {
            SampleFault::StoreFault => Status::StoreFault,
            SampleFault::DiskFault => Status::DiskFault,
            SampleFault::NoMemory => Status::NoMemory,
        }
    }
}
