//! Links that are made in a directory, and made durable.
#![tactic(auto)]

mod fault;
mod making;

pub use fault::LinkFault;
pub use making::{NewLink, make_links};
