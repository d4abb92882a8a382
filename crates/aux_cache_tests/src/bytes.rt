//! Bytes by their hexadecimal digits.
use lib_types::NoMemory;
use std::alloc::Global;
use table_rows::{Row, divide};

fn digit(byte: u8) -> Option<u8> {
    match byte {
        b'0'..=b'9' => Some(byte.saturating_sub(b'0')),
        b'a'..=b'f' => Some(byte.saturating_sub(b'a').saturating_add(10)),
        _ => None,
    }
}

// Adds the bytes of these hexadecimal digits. Characters between them that aren't digits are skipped.
fn push_hex(out: &mut Vec<u8>, digits: &[u8]) -> Result<(), NoMemory> {
    let mut high = None;
    for byte in digits {
        if let Some(value) = digit(*byte) {
            if let Some(first) = high {
                let first: u8 = first;
                out.push(first.saturating_mul(16).saturating_add(value))?;
                high = None;
            } else {
                high = Some(value);
            }
        }
    }
    Ok(())
}

/// The bytes of these digits.
pub(crate) fn hex(alloc: Global, digits: &[u8]) -> Result<Vec<u8>, NoMemory> {
    let mut bytes = Vec::new(alloc);
    push_hex(&mut bytes, digits)?;
    Ok(bytes)
}

/// The bytes of the lines `hex`, one after the other.
pub(crate) fn bytes_of(alloc: Global, row: Row<'_>) -> Result<Vec<u8>, NoMemory> {
    let mut bytes = Vec::new(alloc);
    for line in row {
        let (word, rest) = divide(b' ', *line);
        if word == b"hex".as_slice() {
            push_hex(&mut bytes, rest)?;
        }
    }
    Ok(bytes)
}

/// The file with its bytes at this offset replaced by these. Bytes past the end are dropped.
pub(crate) fn with_bytes(
    alloc: Global,
    file: &[u8],
    at: u64,
    bytes: &[u8],
) -> Result<Vec<u8>, NoMemory> {
    let at = (at as usize).min(file.len());
    let end = at.saturating_add(bytes.len()).min(file.len());
    let mut changed = Vec::new(alloc);
    changed.extend_from_slice(&file[..at])?;
    changed.extend_from_slice(bytes)?;
    changed.extend_from_slice(&file[end..])?;
    Ok(changed)
}
