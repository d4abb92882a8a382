//! The reading of the conf files of a directory: what it needs is looked up when it is needed.
#![tactic(auto)]

mod fault;
mod patterns;
mod reading;
mod view;

pub use fault::LookFault;
pub use reading::see_conf;
