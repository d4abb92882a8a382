//! The files of an image's slots, and how they are replaced.
#![tactic(auto)]

mod image_slots;
mod places;
mod same_bytes;
mod slot_files;
mod temporary;

pub use image_slots::ImageSlots;
pub use slot_files::{SlotFiles, Written};
