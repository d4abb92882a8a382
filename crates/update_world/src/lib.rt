//! A model of concurrent updaters and loaders, one system call at a time: what loaders read, and what a crash can leave.
#![tactic(auto)]

mod fault;
mod machine;
mod post;
mod readings;
mod run;
mod tags;
mod world;

pub use fault::WorldFault;
pub use post::{Post, Posts, Reading, Readings, Turn};
pub use run::world_run;
pub use world::World;
