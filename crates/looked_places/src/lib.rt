//! Looks up what an update needs of a directory: to find the search directories, the files and links with library names in them, and links
//! with the names of sonames. After that the part that was looked at gives what the whole tree gives.
#![tactic(auto)]

mod dirs;
mod libraries;
mod names;

pub use dirs::see_places;
pub use libraries::{see_libraries, see_sonames};
