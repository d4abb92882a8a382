//! The devices over a real directory and real streams.
#![tactic(auto)]

mod counts;
mod folder_disk;
mod folder_store;
mod linker_script;
mod machines;
mod script_end;
mod stdio;

pub use folder_disk::FolderDisk;
pub use folder_store::FolderStore;
pub use machines::{FirstFile, Machines};
pub use stdio::{StdinSource, StdoutSink};
