//! The errors of a line.

/// The error of a line. If a line has several errors, the first in this order is reported.
#[derive(Clone, Copy, Debug, PartialEq, Eq)]
pub enum LineKind {
    /// A backslash doesn't begin an escape.
    BadEscape,
    /// The line is malformed.
    BadLine,
    /// A number isn't 1 to 20 decimal digits, or isn't below 2^64.
    BadNumber,
    /// The value of `type` is unknown.
    BadType,
    /// A link has no target.
    NoTarget,
}
