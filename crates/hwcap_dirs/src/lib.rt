//! The search directories for libraries, in order, with their `glibc-hwcaps` subdirectories.
#![tactic(auto)]

mod kinds;
mod listing;
mod system;

pub use kinds::{Dirs, Place, Places, SPELLED_MAX, Scope};
pub use listing::{dir_at, order};
pub use system::{SYSTEM_DIRS, next_builtin_dir, next_system_dir};
