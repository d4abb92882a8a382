//! Devices in memory, for tests and samples: those that fail on demand, and those that never do.
mod disks;
mod failures;
mod past;
mod stores;
mod streams;
mod temporaries;

pub use disks::{MemDisk, SureDisk};
pub use stores::{MemStore, SureStore};
pub use streams::{MemSink, MemSource, SureSink, SureSource};
