//! The files and links that a path needs: the links that its resolution follows, and the file at its end.
#![tactic(auto)]

mod names;
mod trail;

pub use trail::add_trail;
