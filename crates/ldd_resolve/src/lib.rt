//! The libraries that a program of an image loads, with their paths, as ldd(1) lists them.
#![tactic(auto)]

mod each;
mod kinds;
mod loading;
mod names;
mod printing;
mod requests;
mod resolving;

pub use each::resolve_each;
pub use kinds::{
    Item, Listing, Member, Members, ProgramFault, ProgramScope, ProgramScopes, Replies, Reply,
    ResolveFault, Scope,
};
pub use names::add_names;
pub use printing::listing_text;
pub use resolving::scope;
