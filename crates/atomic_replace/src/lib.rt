//! Atomic replacement of a slot, which leaves the old content or the new one, and of several slots one after another.
#![tactic(auto)]

mod fault;
mod progress;
mod slots;
#[cfg(test)]
mod tests;
mod updater;

pub use fault::DiskFault;
pub use progress::Progress;
pub use slots::{SlotWrite, replace_slots};
pub use updater::Updater;
