//! Reads cache files without allocating memory, and prints them.
#![tactic(auto)]

mod buffer;
mod check;
mod defect;
mod extension;
mod printing;
mod view;

pub use defect::CacheDefect;
pub use printing::print;
pub use view::{CacheView, EntryView};
