//! Lines for the error output that are written together.
use crate::streams::{Streams, write_text};
use std::rt::Runtime;
use std::{io, mem};

// The lines are written as soon as they have this many bytes.
const KEPT_BYTES: usize = 1 << 14;

/// Lines for the error output. They are written together, since one call of the system takes longer than making many lines.
#[derive(Drop)]
pub struct ErrorLines<'r, R: Runtime> {
    rt: &'r R,
    text: String<R::A>,
}

impl<'r, R: Runtime + Streams> ErrorLines<'r, R> {
    /// No lines yet. Allocates no memory.
    pub fn new(rt: &'r R) -> ErrorLines<'r, R> {
        ErrorLines {
            rt,
            text: String::new(rt.alloc()),
        }
    }

    /// The runtime.
    pub fn rt(&self) -> &'r R {
        self.rt
    }

    /// Adds a line, and writes the lines if there are many.
    pub fn add(&mut self, line: &str) -> io::Result<()> {
        self.text.push_str(line)?;
        if self.text.len() >= KEPT_BYTES {
            self.write()?;
        }
        Ok(())
    }

    /// Writes the lines that aren't written yet.
    pub fn write(&mut self) -> io::Result<()> {
        if self.text.is_empty() {
            return Ok(());
        }
        let text = mem::replace(&mut self.text, String::new(self.rt.alloc()));
        write_text(self.rt, text.as_str())
    }
}
