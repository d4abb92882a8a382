//! The files and links with library names in the search directories: which are examined, and what the links resolve to.
#![tactic(auto)]

mod followed;
mod found;
mod links;
mod places;
mod reals;
mod search;

pub use followed::{FollowedIter, FollowedLink, FollowedLinks};
pub use found::FoundFile;
pub use links::{FolderLinks, PlaceLinks, dangling, dangling_among, follow, reached, unread_files};
pub use places::{has_no_cap, links_to};
pub use reals::{RealFolders, real_folders};
pub use search::{wanted, wanted_files};
