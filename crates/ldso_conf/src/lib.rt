//! The conf file of ldconfig: which directories it names, with the files that it includes.
#![tactic(auto)]

mod content;
mod fault;
mod given;
mod in_tree;
mod kinds;
mod lines;
mod reader;
mod reading;
mod steps;

pub use conf_patterns::glob_match;
pub use fault::{ConfFault, ReadFault};
pub use given::given_dirs;
pub use in_tree::read_conf;
pub use kinds::{Conf, ConfKind, ConfReport, ConfReports, Origin, Origins};
pub use reading::{CONF_MAX, CONF_PATH, DEPTH_MAX, read_conf_in};
