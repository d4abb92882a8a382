//! The command `sample`: two updates of images of generated libraries in memory, look-ups in their caches, and readings while updaters
//! write.
#![tactic(auto)]

mod fault;
mod files;
mod images;
mod lookups;
mod numbers;
mod readings;
mod run;
mod sample;
mod text;
mod updates;

pub use fault::SampleFault;
pub use files::SampleFile;
pub use run::run_sample;
pub use sample::sample_on;
