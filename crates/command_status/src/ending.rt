//! How a command that only asks ends.
ghost use Rattle.std.specs.Prelude.{◌≡◌};
ghost use Rattle.std.specs.Result.{result_map_both};
ghost use Rattle.tree_face.specs.Stream.{TakesAll};
ghost use Rattle.command_status.specs.Ending.{AnswerText, EndsAs, answered, first_status};

use crate::output::put_fault_line;
use crate::status::Status;
use image_session::LoadFault;
use ldd_resolve::{ProgramFault, ResolveFault};
use lib_types::Failed;
use tree_face::Sink;

/// The answer of a command that only asks. It may be written in pieces.
pub trait Answer {
    ghost answer: { Self → AnswerText };

    /// Writes the text. After an error a prefix of it was written.
    fn write<O: Sink>(&self, out: &mut O) -> Result<(), Failed>
        ensures { TakesAll (O.state out.old) (O.state out.new) (answer self.now).text result };

    /// Whether something that was asked for is missing.
    fn is_missing(&self) -> bool
        ensures { result ≡ (answer self.now).missing };

    /// Why a path has no program, for the first such path of those that were asked for.
    fn fault(&self) -> Option<ProgramFault>
        ensures { result ≡ (answer self.now).fault };
}

/// Why a command has no answer.
pub trait Fault {
    ghost use Rattle.command_status.specs.declared.status.Status.{Status};
    ghost use Rattle.command_status.specs.declared.status.Status.TheVariants as statuses;

    ghost status_of: { Self → Status };

    /// The status of a command that ends with this fault.
    fn status(self) -> Status
        ensures { result ≡ status_of self };

    // Only invalid arguments have the status `Usage`.
    ghost not_usage: { (fault : Self) → status_of fault ≡ statuses.Usage → ⊥ };
}

// The status of the fault, or else the other status.
#[tactic(auto, using(crate::specs::Usage::program_no_usage))]
fn first_status(fault: Option<ProgramFault>, other: Status) -> Status
    ensures status { result ≡ first_status fault other }
    ensures no_usage { result ≡ Status.Usage → other ≡ Status.Usage }
{
    match fault {
        Some(fault) => Status::from(fault),
        None => other,
    }
}

// The status of an answer that is written.
fn status_of<A: Answer>(answer: &A) -> Status
    ensures status { result ≡ answered (A.answer answer.now) }
    ensures no_usage { result ≡ Status.Usage → ⊥ }
{
    let other = if answer.is_missing() {
        Status::Missing
    } else {
        Status::Done
    };
    first_status(answer.fault(), other)
}

/// Ends a command that only asks: writes the answer, or the fault line of the error. If the output fails, the status is OutputFault, unless
/// the answer has a fault.
pub fn end<A: Answer + Drop, F: Fault, O: Sink>(answered: Result<A, F>, out: &mut O) -> Status
    ensures ends { EndsAs (result_map_both A.answer F.status_of answered) result (O.state out.old) (O.state out.new) }
    ensures no_usage { result ≡ Status.Usage → ⊥ }
{
    let answer = match answered {
        Ok(answer) => answer,
        Err(fault) => {
            let status = fault.status();
            put_fault_line(out, status);
            return status;
        }
    };
    if answer.write(out).is_err() {
        return first_status(answer.fault(), Status::OutputFault);
    }
    status_of(&answer)
}

impl Fault for LoadFault {
    ghost use Rattle.command_status.specs.Status.{of_load};
    ghost use Rattle.command_status.specs.Usage.{load_no_usage};

    ghost status_of = { of_load };

    fn status(self) -> Status {
        Status::from(self)
    }

    ghost not_usage = { load_no_usage };
}

impl Fault for ResolveFault {
    ghost use Rattle.command_status.specs.Status.{of_resolve};
    ghost use Rattle.command_status.specs.Usage.{resolve_no_usage};

    ghost status_of = { of_resolve };

    fn status(self) -> Status {
        Status::from(self)
    }

    ghost not_usage = { resolve_no_usage };
}
