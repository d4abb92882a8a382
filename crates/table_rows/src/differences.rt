//! The report of rows that differ.
use crate::lines::{Row, text};
use lib_types::NoMemory;
use std::alloc::Global;

/// The report of rows that differ, as text.
#[derive(Drop)]
pub struct Differences {
    text: Vec<u8>,
}

impl Differences {
    /// An empty report.
    pub fn new(alloc: Global) -> Differences {
        Differences {
            text: Vec::new(alloc),
        }
    }

    pub(crate) fn text(&self) -> &[u8] {
        &self.text
    }

    /// Adds a line to the report, made of these two parts.
    pub fn say(&mut self, front: &[u8], back: &[u8]) -> Result<(), NoMemory> {
        self.text.extend_from_slice(front)?;
        self.text.extend_from_slice(back)?;
        self.text.push(b'\n')?;
        Ok(())
    }

    /// Whether both texts are equal. If not, reports both.
    pub fn is_same(&mut self, name: &[u8], want: &[u8], got: &[u8]) -> Result<bool, NoMemory> {
        if want == got {
            return Ok(true);
        }
        self.say(name, b": expected")?;
        self.say(want, b"")?;
        self.say(name, b": got")?;
        self.say(got, b"")?;
        Ok(false)
    }

    /// Whether `got` equals the row's text below the word. If not, reports both.
    pub fn is_text(
        &mut self,
        alloc: Global,
        row: Row<'_>,
        word: &[u8],
        got: &[u8],
    ) -> Result<bool, NoMemory> {
        let want = text(alloc, row, word)?;
        self.is_same(word, &want, got)
    }

    /// Whether two numbers are equal. If not, reports both.
    pub fn is_number(
        &mut self,
        alloc: Global,
        name: &[u8],
        want: u64,
        got: u64,
    ) -> Result<bool, NoMemory> {
        let (want, got) = (format!(in alloc; "{want}")?, format!(in alloc; "{got}")?);
        self.is_same(name, want.as_bytes(), got.as_bytes())
    }
}
