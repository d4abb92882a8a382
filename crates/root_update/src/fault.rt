//! Why a directory isn't updated.
ghost use Rattle.std.specs.Prelude.{◌≡◌};
ghost use Rattle.root_update.specs.Faults.{of_root, of_tree};

use command_status::Status;
use image_session::SlotFault;
use ldconfig_core::UpdateFault;
use lib_types::NoMemory;
use root_tree::TreeRead;
use root_writes::WriteFault;
use tree_face::NODES_MAX;

/// Why a directory isn't updated.
#[derive(Drop)]
pub enum RootFault {
    /// Its tree can't be read. Nothing was written.
    Tree(TreeRead),
    /// The links and the cache weren't made. Nothing was written.
    Update(UpdateFault),
    /// The auxiliary cache or the existing cache can't be read. Nothing was written.
    Slot(SlotFault),
    /// Some of the links and files were not written.
    Write(WriteFault),
}

impl From<NoMemory> for RootFault {
    ghost use Rattle.ldconfig_core.specs.declared.fault.UpdateFault.TheVariants as updating;
    ghost use Rattle.root_update.specs.declared.fault.RootFault.TheVariants as faults;

    ghost from_gives = { λ _ fault. fault ≡ faults.Update updating.NoMemory };

    fn from(_: NoMemory) -> Self {
        RootFault::Update(UpdateFault::NoMemory)
    }
}

impl From<SlotFault> for RootFault {
    ghost use Rattle.root_update.specs.declared.fault.RootFault.TheVariants as faults;

    ghost from_gives = { λ slot fault. fault ≡ faults.Slot slot };

    fn from(fault: SlotFault) -> Self {
        RootFault::Slot(fault)
    }
}

fn status_of_tree(fault: &TreeRead) -> Status
    ensures { result ≡ of_tree fault.now }
{
    match fault {
        TreeRead::Failed { .. } => Status::StoreFault,
        TreeRead::TooLarge => Status::TooLarge {
            nodes: NODES_MAX as u64 + 1,
            bytes: 0,
        },
        TreeRead::NoMemory => Status::NoMemory,
    }
}

/// The status of a run that ends with this fault.
pub fn status_of(fault: &RootFault) -> Status
    ensures { result ≡ of_root fault.now }
{
    match fault {
        RootFault::Tree(fault) => status_of_tree(fault),
        RootFault::Update(fault) => Status::from(*fault),
        RootFault::Slot(SlotFault::NoMemory) => Status::NoMemory,
        RootFault::Slot(SlotFault::DiskFailed { .. }) => Status::DiskFault,
        RootFault::Write(_) => Status::DiskFault,
    }
}
