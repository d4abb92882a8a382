//! Runs the tests of a table, row by row.
use crate::differences::Differences;
use crate::lines::{Row, begins_with, expanded, lines_before, lines_of, of_text};
use lib_types::NoMemory;
use std::alloc::Global;
use std::io::ErrorKind;
use std::process::ExitCode;
use std::{fs, io};

/// The first words of the lines of a row.
pub type Words = &'static [&'static [u8]];

/// The format of a row, and how a row is tested.
pub trait Trial {
    /// The first words of a row's lines, in one or several lists. Text lines need no word.
    fn words() -> &'static [Words];

    /// Whether the result equals what the row expects. If not, reports the difference.
    fn is_right(
        alloc: Global,
        row: Row<'_>,
        differences: &mut Differences,
    ) -> Result<bool, NoMemory>;
}

// The number of rows of a table, and the number of rows that differ.
#[derive(Clone, Copy)]
struct Counts {
    rows: u64,
    differ: u64,
}

const HEAD: Words = &[b"row"];

fn is_known(lists: &[Words], line: &[u8]) -> bool {
    for words in lists {
        if begins_with(words, line) {
            return true;
        }
    }
    line.is_empty() || of_text(line).is_some()
}

// Whether each line of a row begins with a known word. If not, reports the first one that doesn't.
fn are_known(
    lists: &[Words],
    row: Row<'_>,
    differences: &mut Differences,
) -> Result<bool, NoMemory> {
    for line in row {
        if !is_known(lists, line) {
            differences.say(b"no line of a row: ", line)?;
            return Ok(false);
        }
    }
    Ok(true)
}

// Whether a row is right. If not, reports its head.
fn is_right<T: Trial>(
    alloc: Global,
    head: &[u8],
    row: Row<'_>,
    differences: &mut Differences,
) -> Result<bool, NoMemory> {
    let is_right = are_known(T::words(), row, differences)?
        && T::is_right(alloc, row, differences)?;
    if !is_right {
        differences.say(b"differs: ", head)?;
    }
    Ok(is_right)
}

fn try_rows<T: Trial>(
    alloc: Global,
    lines: &[&[u8]],
    differences: &mut Differences,
) -> Result<Counts, NoMemory> {
    let (mut rows, mut differ) = (0u64, 0u64);
    for (index, line) in lines.iter().enumerate() {
        if begins_with(HEAD, line) {
            rows = rows.saturating_add(1);
            let row = lines_before(HEAD, &lines[index + 1..]);
            if !is_right::<T>(alloc, line, row, differences)? {
                differ = differ.saturating_add(1);
            }
        }
    }
    Ok(Counts { rows, differ })
}

// Tests each row of a table, and reports the differences.
fn try_table<T: Trial>(
    alloc: Global,
    text: &[u8],
    differences: &mut Differences,
) -> Result<Counts, NoMemory> {
    let text = expanded(alloc, text)?;
    let lines = lines_of(alloc, &text)?;
    try_rows::<T>(alloc, &lines, differences)
}

// Tests the table in this file, and prints the differences.
fn try_file<T: Trial>(rt: &HostRuntime, name: &str) -> io::Result<Counts> {
    let alloc = rt.alloc();
    let text = fs::read(rt, name)?;
    let mut differences = Differences::new(alloc);
    let Ok(counts) = try_table::<T>(alloc, &text, &mut differences) else {
        return Err(io::Error::from(ErrorKind::OutOfMemory));
    };
    if let Ok(differences) = std::str::from_utf8(differences.text()) {
        rt.print(differences)?;
    }
    Ok(counts)
}

/// Tests the tables in these files. Prints the differences and the number of rows of each table. Returns whether all rows are right.
pub fn try_tables<T: Trial>(rt: &HostRuntime, names: &[&str]) -> io::Result<bool> {
    let mut are_right = true;
    for name in names {
        let Counts { rows, differ } = try_file::<T>(rt, name)?;
        println!(rt; "{name}: {rows} rows, {differ} differ")?;
        are_right = are_right && rows != 0 && differ == 0;
    }
    Ok(are_right)
}

/// The exit status of a test program.
pub fn status(are_right: bool) -> ExitCode {
    if are_right {
        ExitCode::SUCCESS
    } else {
        ExitCode::FAILURE
    }
}
