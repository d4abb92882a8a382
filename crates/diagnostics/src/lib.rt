//! What the program says on the error output: how a command ended, what an update found, and what to do.
#![tactic(auto)]

mod name_notes;
mod notes;
mod program_notes;
mod start;
mod texts;
mod unsearched;
mod word_notes;

pub use name_notes::note_names;
pub use notes::{
    note_fewer, note_long_script, note_machines, note_manifest, note_script, note_size, note_update,
};
pub use program_notes::{note_program, only_path};
pub use start::StartFault;
pub use texts::{
    EDITS_NOT_WRITTEN, LIST_LACKS, USAGE, VERSION, advice, is_part_of_list, usage_of,
    written_before,
};
pub use unsearched::note_library_dirs;
pub use word_notes::note_words;
