//! Reads the dynamic sections of ELF files from a store, in windows.
#![tactic(auto)]

mod entries;
mod fault;
mod file;
mod gather;
pub mod kinds;
mod numbers;
mod reader;
mod section;
mod segments;
mod table;
mod text;
mod values;
mod window;

pub use entries::Entries;
pub use fault::{AnalyseFault, ObjectFault};
pub use file::ElfFile;
pub use reader::{analyse, object};
pub use text::TEXT_LIMIT;
