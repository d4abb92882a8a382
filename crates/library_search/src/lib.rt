//! The results of an update's search: conf files, search directories, libraries, planned links, and the link targets.
#![tactic(auto)]

mod fault;
mod finding;
mod following;
mod judging;
mod search;

pub use fault::FindFault;
pub use finding::{Found, find, plan_found};
pub use following::Followed;
pub use search::{Search, conf_or, read_source, search_places};
