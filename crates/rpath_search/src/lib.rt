//! The paths at which the loader looks for the libraries that an object needs, and the file that it selects.
#![tactic(auto)]

mod candidates;
mod dirs;
mod fault;
mod kinds;
mod listing;
mod loaders;
mod parts;
mod paths;
mod search;

pub use candidates::Candidates;
pub use fault::SearchFault;
pub use kinds::{Chain, Env, Found, Owner, SystemDirs};
pub use listing::places;
pub use loaders::Loaders;
pub use parts::{Part, Wanted, part_of};
pub use paths::{folder_of, from_root};
pub use search::{Answer, LoadedFiles, find, is_library, key_at, library_at, search_paths};
