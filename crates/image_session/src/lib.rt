//! An image that is loaded and edited.
#![tactic(auto)]

mod edit;
mod fault;
mod reading;
mod session;

pub use fault::{EditFault, LoadFault, SlotFault};
pub use reading::{ReadImage, TreeSource, read_image, read_slot, read_tree};
pub use session::Session;
