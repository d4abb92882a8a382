//! Synthetic caches for tests. Each has the entries of a test row, in the order of the row, as another program may have written them.
#![tactic(auto)]

use cache_layout::{EXTENSION_MAGIC, MAGIC, NAMES_TAG};
use lib_types::NoMemory;
use std::alloc::Global;
use table_rows::{Row, Words, divide, number};

/// The words for entries. `entry FLAGS CAP NAME PATH` is an entry. CAP is a hwcaps name, `-` for none, or `#NUMBER` for a hwcap with this
/// value. `series COUNT` is this number of entries with descending names.
pub const ENTRIES: Words = &[b"entry", b"series"];

const NAMED: u64 = 1 << 62;

// The parts of a cache, and the offset of its strings.
#[derive(Drop)]
struct Parts {
    start: usize,
    entries: Vec<u8>,
    strings: Vec<u8>,
    names: Vec<u8>,
    count: u32,
}

fn put_u32(out: &mut Vec<u8>, value: u32) -> Result<(), NoMemory> {
    out.extend_from_slice(&value.to_le_bytes())?;
    Ok(())
}

impl Parts {
    fn new(alloc: Global, count: usize) -> Parts {
        Parts {
            start: count.saturating_mul(24).saturating_add(48),
            entries: Vec::new(alloc),
            strings: Vec::new(alloc),
            names: Vec::new(alloc),
            count: 0,
        }
    }

    // Appends a string, and returns its offset in the file.
    fn put_string(&mut self, text: &[u8]) -> Result<u32, NoMemory> {
        let at = self.start.saturating_add(self.strings.len());
        self.strings.extend_from_slice(text)?;
        self.strings.push(0)?;
        Ok(u32::try_from(at).unwrap_or(0))
    }

    // The hwcap of an entry: 0 for `-`, the number after `#`, otherwise the index of this hwcaps name.
    fn hwcap(&mut self, cap: &[u8]) -> Result<u64, NoMemory> {
        if cap == b"-".as_slice() {
            return Ok(0);
        }
        if cap.starts_with(b"#") {
            return Ok(number(&cap[1..]));
        }
        let at = self.put_string(cap)?;
        put_u32(&mut self.names, at)?;
        let index = u64::from(self.count);
        self.count = self.count.saturating_add(1);
        Ok(NAMED | index)
    }

    fn put_entry(
        &mut self,
        flags: u64,
        cap: &[u8],
        name: &[u8],
        path: &[u8],
    ) -> Result<(), NoMemory> {
        let key = self.put_string(name)?;
        let value = self.put_string(path)?;
        let hwcap = self.hwcap(cap)?;
        put_u32(&mut self.entries, u32::try_from(flags).unwrap_or(0))?;
        put_u32(&mut self.entries, key)?;
        put_u32(&mut self.entries, value)?;
        put_u32(&mut self.entries, 0)?;
        self.entries.extend_from_slice(&hwcap.to_le_bytes())?;
        Ok(())
    }
}

// Adds an entry from `FLAGS CAP NAME PATH`.
fn put_line(parts: &mut Parts, line: &[u8]) -> Result<(), NoMemory> {
    let (flags, rest) = divide(b' ', line);
    let (cap, rest) = divide(b' ', rest);
    let (name, path) = divide(b' ', rest);
    parts.put_entry(number(flags), cap, name, path)
}

// Adds libraries with descending names. The last has the number 0.
fn put_series(alloc: Global, parts: &mut Parts, count: u64) -> Result<(), NoMemory> {
    for index in 0..count {
        let number = count.saturating_sub(index).saturating_sub(1);
        let name = format!(in alloc; "lib{number}.so.1")?;
        let path = format!(in alloc; "/lib/lib{number}.so.1")?;
        parts.put_entry(771, b"-", name.as_bytes(), path.as_bytes())?;
    }
    Ok(())
}

fn count_entries(row: Row<'_>) -> usize {
    let mut count = 0usize;
    for line in row {
        let (word, rest) = divide(b' ', *line);
        if word == b"entry".as_slice() {
            count = count.saturating_add(1);
        }
        if word == b"series".as_slice() {
            count = count.saturating_add(number(rest) as usize);
        }
    }
    count
}

fn put_lines(alloc: Global, parts: &mut Parts, row: Row<'_>) -> Result<(), NoMemory> {
    for line in row {
        let (word, rest) = divide(b' ', *line);
        if word == b"entry".as_slice() {
            put_line(parts, rest)?;
        }
        if word == b"series".as_slice() {
            put_series(alloc, parts, number(rest))?;
        }
    }
    Ok(())
}

fn pad(out: &mut Vec<u8>) -> Result<(), NoMemory> {
    for _ in 0..3 {
        if out.len() % 4 != 0 {
            out.push(0)?;
        }
    }
    Ok(())
}

// Writes the extension, which has only the section of the hwcaps names.
fn put_extension(out: &mut Vec<u8>, parts: &Parts) -> Result<(), NoMemory> {
    let at = u32::try_from(out.len()).unwrap_or(0).saturating_add(24);
    let size = parts.count.saturating_mul(4);
    for value in [EXTENSION_MAGIC, 1, NAMES_TAG, 0, at, size] {
        put_u32(out, value)?;
    }
    out.extend_from_slice(&parts.names)?;
    Ok(())
}

fn put_header(out: &mut Vec<u8>, count: usize, parts: &Parts) -> Result<(), NoMemory> {
    let end = parts.start.saturating_add(parts.strings.len());
    let extension = end.saturating_add(3) / 4 * 4;
    out.extend_from_slice(MAGIC)?;
    let numbers = [count, parts.strings.len(), 2, extension, 0, 0, 0];
    for value in numbers {
        put_u32(out, u32::try_from(value).unwrap_or(0))?;
    }
    Ok(())
}

/// The bytes of a cache with the entries of this row.
pub fn cache_of(alloc: Global, row: Row<'_>) -> Result<Vec<u8>, NoMemory> {
    let count = count_entries(row);
    let mut parts = Parts::new(alloc, count);
    put_lines(alloc, &mut parts, row)?;
    let mut out = Vec::new(alloc);
    put_header(&mut out, count, &parts)?;
    out.extend_from_slice(&parts.entries)?;
    out.extend_from_slice(&parts.strings)?;
    pad(&mut out)?;
    put_extension(&mut out, &parts)?;
    Ok(out)
}
