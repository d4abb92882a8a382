//! Views of an image's tree, in which the reading of the conf files finds files. One is over a whole tree. Another may look up each path when
//! it is needed.
#![tactic(auto)]

mod fault;
mod view;
mod whole;

pub use fault::ViewFault;
pub use view::{FoundFile, TreeView};
pub use whole::WholeView;
