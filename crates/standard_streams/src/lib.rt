//! The standard streams, written without raising SIGXFSZ, and the error lines that say what failed. What could steer a terminal is escaped.
#![tactic(auto)]

mod error_line;
mod error_lines;
mod escapes;
mod limits;
mod streams;
mod terminal;
mod turns;

pub use error_line::{
    OUT_OF_MEMORY, or_out_of_memory, printable, printable_bytes, write_error_line,
};
pub use error_lines::ErrorLines;
pub use escapes::shown;
pub use limits::file_limit;
pub use streams::{Streams, write_text};
pub use terminal::{has_terminal, write_shown};
pub use turns::{pause, read_some, write_some};
