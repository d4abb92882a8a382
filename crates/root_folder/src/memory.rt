//! The directory of an image in memory, for tests.
mod failures;
mod folders;
mod past;

pub use folders::MemFolder;
