//! The auxiliary cache of a row.
use crate::lines::{change, own_lines};
use lib_types::NoMemory;
use std::alloc::Global;
use table_rows::{Row, Words, divide, has_line, number, text, text_below};

/// The words of the auxiliary cache: `aux` with its bytes as text, or `records` with the numbers of its records, eight for each, and its
/// strings as text. `changed` and `cut` follow below `records`.
pub const AUX: Words = &[b"aux", b"records", b"changed", b"cut"];

// the magic of version 1.1
const MAGIC: &[u8] = b"glibc-ld.so.auxcache-1.1";

fn push_four(file: &mut Vec<u8>, number: u64) -> Result<(), NoMemory> {
    file.extend_from_slice(&number.to_le_bytes()[..4])?;
    Ok(())
}

// Adds a number of a record. A record has eight numbers: the first four have eight bytes each, and the others four.
fn push_number(records: &mut Vec<u8>, index: usize, number: u64) -> Result<(), NoMemory> {
    if index % 8 < 4 {
        records.extend_from_slice(&number.to_le_bytes())?;
        Ok(())
    } else {
        push_four(records, number)
    }
}

fn records_of(alloc: Global, numbers: &[u8]) -> Result<Vec<u8>, NoMemory> {
    let mut records = Vec::new(alloc);
    let mut rest = numbers;
    for index in 0..numbers.len() {
        if rest.is_empty() {
            break;
        }
        let (digits, after) = divide(b' ', rest);
        push_number(&mut records, index, number(digits))?;
        rest = after;
    }
    Ok(records)
}

// The auxiliary cache file with these records and strings.
fn file_of(alloc: Global, numbers: &[u8], strings: &[u8]) -> Result<Vec<u8>, NoMemory> {
    let records = records_of(alloc, numbers)?;
    let mut file = Vec::from_slice(alloc, MAGIC)?;
    push_four(&mut file, (records.len() / 48) as u64)?;
    push_four(&mut file, strings.len() as u64)?;
    file.extend_from_slice(&records)?;
    file.extend_from_slice(strings)?;
    Ok(file)
}

/// The auxiliary cache with the records of the first line with this word, changed as its lines say.
pub fn records_in(alloc: Global, row: Row<'_>, word: &[u8]) -> Result<Option<Vec<u8>>, NoMemory> {
    for (index, line) in row.iter().enumerate() {
        let (first, numbers) = divide(b' ', line);
        if first == word {
            let lines = own_lines(&row[index + 1..]);
            let strings = text_below(alloc, lines)?;
            let mut file = file_of(alloc, numbers, &strings)?;
            change(&mut file, lines);
            return Ok(Some(file));
        }
    }
    Ok(None)
}

/// The auxiliary cache of a row, if it has one.
pub fn aux_of(alloc: Global, row: Row<'_>) -> Result<Option<Vec<u8>>, NoMemory> {
    if has_line(row, b"aux") {
        return Ok(Some(text(alloc, row, b"aux")?));
    }
    records_in(alloc, row, b"records")
}
