//! The headers of ELF files in both classes, read from a store in windows.
#![tactic(auto)]

mod class;
mod fault;
pub mod kinds;
mod reader;

pub use class::Class;
pub use fault::HeadFault;
pub use reader::{head, segment};
