//! Why the conf file of a directory isn't read.
use root_tree::TreeRead;

/// Why the conf file of a directory isn't read.
#[derive(Drop)]
pub enum LookFault {
    /// A path can't be looked up, or a directory can't be listed.
    Tree(TreeRead),
    /// The content of a conf file can't be read.
    StoreFault,
    NoMemory,
}
