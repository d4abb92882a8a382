//! The auxiliary cache: what earlier updates read from the libraries, by the identities of their files.
#![tactic(auto)]

mod defects;
mod fault;
mod fields;
mod gathered;
mod layout;
mod numbers;
mod order;
mod reader;
mod stamps;
mod writer;

pub use fault::AuxFault;
pub use gathered::GatheredStamps;
pub use layout::{MAGIC_START, MAGIC_START_SIZE};
pub use reader::read;
pub use stamps::{STAMPS_MAX, Stamp, Stamps};
pub use writer::write;
