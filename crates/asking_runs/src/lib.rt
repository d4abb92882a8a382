//! The commands that only ask an image: `print`, `lookup` and `resolve`.
#![tactic(auto)]

mod cache;
mod fault;
mod listings;
mod lookup;
mod print;
mod resolve;

pub use fault::ListFault;
pub use listings::Listed;
pub use lookup::{looked_up_abi, run_lookup};
pub use print::{run_print, run_print_json, run_print_named};
pub use resolve::{list_image, run_resolve};
