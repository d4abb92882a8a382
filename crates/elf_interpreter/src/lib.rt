//! The interpreter that an ELF program names: the loader that starts it.
#![tactic(auto)]

mod fault;
mod reader;

pub use fault::InterpreterFault;
pub use reader::interpreter;
