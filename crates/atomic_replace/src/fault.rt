//! Why a slot wasn't replaced.
use tree_face::{Call, Slot};

/// The writing call that failed.
#[derive(Clone, Copy, Debug, PartialEq, Eq)]
pub struct DiskFault {
    pub call: Call,
    /// The slot that was to be replaced.
    pub slot: Slot,
}
