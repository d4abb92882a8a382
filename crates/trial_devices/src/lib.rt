//! A runtime for tests of the devices over real files and streams. Its calls are counted, and can be made to move fewer bytes, to be
//! interrupted, and to fail, and a link can replace a directory before one of them.
#![tactic(auto)]

mod exchange;
mod file;
mod plan;
mod random;
mod reader;
mod report;
mod runtime;

pub use exchange::{Exchange, Exchanges};
pub use file::{TrialDir, TrialFile};
pub use plan::{Flushes, Manner, Plan, SystemCall};
pub use random::Random;
pub use reader::TrialReader;
pub use report::Report;
pub use runtime::{INPUT, OUTPUT, Trial};
