//! Why a command that only asks a directory has no answer.
use asking_runs::ListFault;
use command_status::{Fault, Status};
use image_session::SlotFault;
use root_tree::TreeRead;
use root_update::{RootFault, status_of};

/// Why a directory can't be read.
#[derive(Drop)]
pub(crate) enum ReadFault {
    /// Its tree can't be read.
    Tree(TreeRead),
    /// Its cache can't be read.
    Cache(SlotFault),
}

/// Why programs of a directory aren't listed.
#[derive(Drop)]
pub(crate) enum RootListFault {
    /// The directory can't be read.
    Read(ReadFault),
    /// The cache is malformed, or a program's libraries can't be searched for.
    List(ListFault),
}

impl Fault for ReadFault {
    ghost use Rattle.root_asking.specs.Faults.{of_read, read_no_usage};

    ghost status_of = { of_read };

    fn status(self) -> Status {
        match self {
            ReadFault::Tree(fault) => status_of(&RootFault::Tree(fault)),
            ReadFault::Cache(fault) => status_of(&RootFault::Slot(fault)),
        }
    }

    ghost not_usage = { read_no_usage };
}

impl Fault for RootListFault {
    ghost use Rattle.root_asking.specs.Faults.{of_root_list, root_list_no_usage};

    ghost status_of = { of_root_list };

    fn status(self) -> Status {
        match self {
            RootListFault::Read(fault) => fault.status(),
            RootListFault::List(fault) => fault.status(),
        }
    }

    ghost not_usage = { root_list_no_usage };
}
