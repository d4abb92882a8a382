//! What a run on a directory is asked to do, the auxiliary cache that it keeps, and what it says on the error output.
#![tactic(auto)]

mod aux;
mod conf_lines;
mod job;
mod paths;
mod root_notes;

pub use aux::{Aux, AuxFile, Kept, note_no_aux};
pub use job::{Job, Target, job_of, text_of, word_of};
pub use paths::{directory_of, no_cache_path, paths_of, real_path};
pub use root_notes::{note_fault, note_rejection, note_report, note_root};
