//! The tokens `$ORIGIN`, `$LIB` and `$PLATFORM` in DT_RPATH, DT_RUNPATH and the library path.
#![tactic(auto)]

mod replacing;
mod token;

pub use replacing::expand;
pub use token::Token;
