//! One update of a session, with its report on the output.
#![tactic(auto)]

mod fault;
mod updating;

pub use fault::UpdatingFault;
pub use updating::{Updater, update_once};
