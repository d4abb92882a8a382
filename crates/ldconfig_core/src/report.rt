//! The report of an update.
use lib_types::Text;

/// The report of an update, and its numbers.
#[derive(Drop)]
pub struct Report {
    /// A line for each finding, and a last line with numbers.
    pub text: Text,
    /// The number of entries in the cache.
    pub libs: u32,
    /// The number of planned links.
    pub links: u32,
    /// The number of library files that were opened.
    pub opened: u64,
}
