//! Why a script ends before its last line is done.
ghost use Rattle.std.specs.Prelude.{◌≡◌};
ghost use Rattle.script_runs.specs.Faults.{numbered, of_edit, of_script};

use command_status::{ScriptKind, Status};
use image_session::EditFault;
use update_runs::UpdatingFault;

/// Why a line of a script isn't done.
#[derive(Clone, Copy, Debug, PartialEq, Eq)]
pub enum LineFault {
    /// The line isn't accepted.
    Bad(ScriptKind),
    /// The update that it asks for ends without its report.
    Updating(UpdatingFault),
    NoMemory,
}

/// Why a script ends before its last line is done.
#[derive(Clone, Copy, Debug, PartialEq, Eq)]
pub enum ScriptFault {
    /// This line, counted from 1, isn't accepted.
    Line { line: u64, kind: ScriptKind },
    /// An update ends without its report.
    Updating(UpdatingFault),
    NoMemory,
}

impl LineFault {
    /// The fault of a script that stops with this fault at the line with this number.
    pub fn at(self, line: u64) -> ScriptFault
        ensures { result ≡ numbered line self }
    {
        match self {
            LineFault::Bad(kind) => ScriptFault::Line { line, kind },
            LineFault::Updating(fault) => ScriptFault::Updating(fault),
            LineFault::NoMemory => ScriptFault::NoMemory,
        }
    }
}

impl From<EditFault> for LineFault {
    ghost from_gives = { λ edit fault. fault ≡ of_edit edit };

    fn from(fault: EditFault) -> Self {
        match fault {
            EditFault::Bad(kind) => LineFault::Bad(ScriptKind::Bad(kind)),
            EditFault::Clash => LineFault::Bad(ScriptKind::Clash),
            EditFault::NotThere => LineFault::Bad(ScriptKind::NotThere),
            EditFault::Full => LineFault::Bad(ScriptKind::Full),
            EditFault::NoMemory => LineFault::NoMemory,
        }
    }
}

impl From<ScriptFault> for Status {
    ghost from_gives = { λ fault status. status ≡ of_script fault };

    fn from(fault: ScriptFault) -> Self {
        match fault {
            ScriptFault::Line { line, kind } => Status::BadScript { line, kind },
            ScriptFault::Updating(fault) => Status::from(fault),
            ScriptFault::NoMemory => Status::NoMemory,
        }
    }
}
