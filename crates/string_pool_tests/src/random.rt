//! Random pools of strings over two letters, against the plain program.
use crate::filling::Filling;
use crate::plain::{offset, table, written};
use lib_types::NoMemory;
use std::alloc::Global;

// The next random number (the generator of Knuth's MMIX).
fn next(seed: &mut u64) -> u64 {
    *seed = seed
        .wrapping_mul(6364136223846793005)
        .wrapping_add(1442695040888963407);
    *seed >> 33
}

// A string of at most six letters.
fn text_of(alloc: Global, seed: &mut u64) -> Result<Vec<u8>, NoMemory> {
    let mut text = Vec::new(alloc);
    for _ in 0..next(seed) % 7 {
        text.push(if next(seed) % 2 == 0 { b'a' } else { b'b' })?;
    }
    Ok(text)
}

fn texts_of(alloc: Global, seed: &mut u64) -> Result<Vec<Vec<u8>>, NoMemory> {
    let mut texts = Vec::new(alloc);
    for _ in 0..next(seed) % 13 {
        texts.push(text_of(alloc, seed)?)?;
    }
    Ok(texts)
}

// Whether the pool of these strings is that of the plain program.
fn is_as_plain(alloc: Global, texts: &[Vec<u8>]) -> Result<bool, NoMemory> {
    let mut filling = Filling::new(alloc);
    let mut numbers = Vec::new(alloc);
    for text in texts {
        numbers.push(filling.add(text.as_slice())?)?;
    }
    let filled = filling.seal(alloc, 0)?;
    let written = written(alloc, texts)?;
    for (text, number) in texts.iter().zip(numbers.iter()) {
        if filled.offset(*number) != offset(&written, text) {
            return Ok(false);
        }
    }
    let table = table(alloc, &written)?;
    Ok(filled.bytes() == table.as_slice())
}

/// Whether this many random pools are those of the plain program.
pub(crate) fn are_as_plain(alloc: Global, seed: u64, count: u64) -> Result<bool, NoMemory> {
    let mut seed = seed;
    for _ in 0..count {
        let texts = texts_of(alloc, &mut seed)?;
        if !is_as_plain(alloc, &texts)? {
            return Ok(false);
        }
    }
    Ok(true)
}
