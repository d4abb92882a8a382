//! The fault line, on the output or in a text.
ghost use Rattle.std.specs.Prelude.{◌≡◌, ◌++◌, OnOk};
ghost use Rattle.command_status.specs.Status.{EndsWith, said};

use crate::fault_line::{add_line, put_line};
use crate::status::Status;
use lib_types::NoMemory;
use tree_face::Sink;

/// Writes the fault line of a status that has one. The status doesn't depend on whether the line can be written.
pub fn put_fault_line<O: Sink>(out: &mut O, status: Status)
    ensures { EndsWith status (O.state out.old) (O.state out.new) }
{
    if let Some(line) = status.fault_line() {
        let _ = put_line(out, &line);
    }
}

/// Adds the fault line of a status that has one to a text.
pub fn add_fault_line(text: &mut Vec<u8>, status: Status) -> Result<(), NoMemory>
    ensures { OnOk result (text.new.items ≡ text.old.items ++ said status) }
{
    match status.fault_line() {
        Some(line) => add_line(text, &line),
        None => Ok(()),
    }
}
