//! Why an update isn't reported.
ghost use Rattle.std.specs.Prelude.{◌≡◌};
ghost use Rattle.update_runs.specs.Update.{of_updating};

use command_status::Status;
use ldconfig_core::UpdateFault;

/// Why an update ends without its report.
#[derive(Clone, Copy, Debug, PartialEq, Eq)]
pub enum UpdatingFault {
    /// The session isn't updated.
    Update(UpdateFault),
    /// The session is updated and stored. A prefix of its report is written.
    OutputFault,
}

impl From<UpdatingFault> for Status {
    ghost from_gives = { λ fault status. status ≡ of_updating fault };

    fn from(fault: UpdatingFault) -> Self {
        match fault {
            UpdatingFault::Update(fault) => Status::from(fault),
            UpdatingFault::OutputFault => Status::OutputFault,
        }
    }
}
