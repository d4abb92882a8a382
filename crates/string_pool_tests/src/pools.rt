//! The offsets and the bytes of a pool.
use crate::filling::Filling;
use crate::random::are_as_plain;
use lib_types::NoMemory;
use std::alloc::Global;
use table_rows::{Differences, Row, Trial, Words, count, divide, number};

/// A line `add OFFSET TEXT` adds a string, which is at this offset when the pool is laid out from the offset `base` on. Below `bytes`
/// there are the bytes of the strings. `random SEED COUNT` is this many random pools, which the plain program lays out too.
pub(crate) struct Pools;

const WORDS: &[Words] = &[&[b"add", b"base", b"bytes", b"random"]];

// The pool's number of each string, and the offset that it should have.
fn fill<'a>(
    alloc: Global,
    row: Row<'a>,
    filling: &mut Filling<'a>,
) -> Result<Vec<(u32, u64)>, NoMemory> {
    let mut wanted = Vec::new(alloc);
    for line in row {
        let (word, rest) = divide(b' ', *line);
        if word == b"add".as_slice() {
            let (offset, text) = divide(b' ', rest);
            wanted.push((filling.add(text)?, number(offset)))?;
        }
    }
    Ok(wanted)
}

fn is_laid_out(
    alloc: Global,
    row: Row<'_>,
    differences: &mut Differences,
) -> Result<bool, NoMemory> {
    let mut filling = Filling::new(alloc);
    let wanted = fill(alloc, row, &mut filling)?;
    let base = u16::try_from(count(row, b"base")).unwrap_or(0);
    let filled = filling.seal(alloc, base)?;
    for (number, want) in wanted.iter() {
        let got = u64::from(filled.offset(*number).unwrap_or(u32::MAX));
        if !differences.is_number(alloc, b"offset", *want, got)? {
            return Ok(false);
        }
    }
    differences.is_text(alloc, row, b"bytes", filled.bytes())
}

// `SEED COUNT`
fn is_random(alloc: Global, line: &[u8], differences: &mut Differences) -> Result<bool, NoMemory> {
    let (seed, many) = divide(b' ', line);
    let is_right = are_as_plain(alloc, number(seed), number(many))?;
    if !is_right {
        differences.say(b"not as the plain program: ", line)?;
    }
    Ok(is_right)
}

impl Trial for Pools {
    fn words() -> &'static [Words] {
        WORDS
    }

    fn is_right(
        alloc: Global,
        row: Row<'_>,
        differences: &mut Differences,
    ) -> Result<bool, NoMemory> {
        for line in row {
            let (word, rest) = divide(b' ', *line);
            if word == b"random".as_slice() && !is_random(alloc, rest, differences)? {
                return Ok(false);
            }
        }
        is_laid_out(alloc, row, differences)
    }
}
