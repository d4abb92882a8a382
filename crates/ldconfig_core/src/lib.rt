//! The update of a loaded image: the links of its libraries, the cache, the auxiliary cache, and the report.
#![tactic(auto)]

mod fault;
mod image;
mod preparing;
mod report;

pub use fault::UpdateFault;
pub use image::update;
pub use preparing::{Looked, Prepared, prepare, prepare_found};
pub use report::Report;
