//! An update of a directory without a manifest: its links are made, and its cache and an auxiliary cache are written.
#![tactic(auto)]

mod checking;
mod fault;
mod making;
mod parts;
mod stamps;
mod updating;

pub use checking::{RootChanges, check_root, status_of_changes};
pub use fault::{RootFault, status_of};
pub use parts::{AuxUse, RootParts};
pub use updating::{Updated, update_root};
