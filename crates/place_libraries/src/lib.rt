//! The libraries of the search directories, from the table of their files, and the best library of each soname.
#![tactic(auto)]

mod best;
mod libraries;
mod sonames;

pub use best::{BestIter, BestLibraries, PlaceBests, is_own, is_preferred};
pub use libraries::{Library, libraries_in};
pub use sonames::{BySoname, Gather, gather_by_soname};
