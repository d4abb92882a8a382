//! Generates ELF files that have only a dynamic section: libraries and programs for tests and samples.
#![tactic(auto)]

mod conditions;
mod fault;
mod fields;
mod file;
mod kinds;
mod layout;
mod section;
mod strings;

pub use conditions::is_spec;
pub use fault::MakeFault;
pub use file::make;
pub use kinds::Spec;
pub use layout::FILE_MAX;
