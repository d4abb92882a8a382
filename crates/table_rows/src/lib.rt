//! Tests whose rows are written in text files. A new row needs no new proof. A test program implements `Trial`, which lists the words of a
//! row, and runs its tables, the files in its data/. `docs/ROWS.md` describes the format of a table.
#![tactic(auto)]

mod differences;
mod lines;
mod table;

pub use differences::Differences;
pub use lines::{
    Row, calls, count, divide, has_line, lines_before, lines_in, list, number, optional_text,
    owned_value, text, text_below, value, values,
};
pub use table::{Trial, Words, status, try_tables};
