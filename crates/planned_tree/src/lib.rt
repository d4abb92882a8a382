//! The links that are planned for an image, put into its tree: a search of that tree gives the same, and no further link is planned.
#![tactic(auto)]

mod planning;

pub use planning::plan_links;
