//! Why links weren't all made.

/// The call that failed, by the index of a link in the list.
#[derive(Clone, Copy, Debug, PartialEq, Eq)]
pub enum LinkFault {
    /// The call that makes this link. The path has the link, or what was there before.
    Link { number: usize },
    /// The fsync of this link's directory. All links exist.
    Settle { number: usize },
}
