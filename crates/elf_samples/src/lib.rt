//! ELF files for tests, and their specs. Two files are written out byte by byte, so that tests can compare them with the generated files.
#![tactic(auto)]

mod bytes;
mod fault;
mod files;

pub use bytes::{I386_LIBZ, LIBZ};
pub use fault::SampleFault;
pub use files::{file_of, full, library, library_file, needing, texts};
