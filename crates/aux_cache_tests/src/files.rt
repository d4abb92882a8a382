//! Reading files and writing them.
use crate::bytes::{bytes_of, hex, with_bytes};
use crate::lines::{Back, Outcome, have_same, id_of, read_back, stamps_of};
use aux_cache::{AuxFault, Stamps, read};
use lib_types::NoMemory;
use std::alloc::Global;
use table_rows::{Differences, Row, Trial, Words, divide, has_line, number, value};

/// A row has the bytes of a file after `hex`. After each `stamp` it has a stamp that is read from the file: device, inode, ctime, size,
/// and ABI and soname (`-` for none), or `not` and a defect. `no-stamp` has an identity without a stamp. Writing the stamps gives the
/// file again, in version 1.1 if it is one of version 1.0 (`old-version`), unless another writer made it (`other-writer`).
/// `damaged PLACE` says that the file is malformed at this offset. `bad AT HEX PLACE` says so of the file with these bytes at offset AT.
/// `more HEX PLACE` says so of the file followed by these bytes. `good AT HEX` says that the file with these bytes can be read. Each file
/// without some of its last bytes is malformed.
pub(crate) struct Files;

// The offset at which the file is malformed.
fn damage(alloc: Global, file: &[u8]) -> Result<Option<u64>, NoMemory> {
    match read(alloc, file) {
        Ok(_) => Ok(None),
        Err(AuxFault::Damaged { at }) => Ok(Some(at)),
        Err(AuxFault::NoMemory) => Err(NoMemory),
    }
}

fn is_damaged(
    alloc: Global,
    file: &[u8],
    place: u64,
    name: &[u8],
    differences: &mut Differences,
) -> Result<bool, NoMemory> {
    match damage(alloc, file)? {
        Some(at) => differences.is_number(alloc, name, place, at),
        None => {
            differences.say(b"not damaged: ", name)?;
            Ok(false)
        }
    }
}

// `AT HEX PLACE`, or `AT HEX` if the file can be read.
fn is_changed(
    alloc: Global,
    file: &[u8],
    line: &[u8],
    is_good: bool,
    differences: &mut Differences,
) -> Result<bool, NoMemory> {
    let (at, rest) = divide(b' ', line);
    let (digits, place) = divide(b' ', rest);
    let changed = with_bytes(alloc, file, number(at), &hex(alloc, digits)?)?;
    if is_good {
        return Ok(damage(alloc, &changed)?.is_none());
    }
    is_damaged(alloc, &changed, number(place), line, differences)
}

// `HEX PLACE`
fn is_longer(
    alloc: Global,
    file: &[u8],
    line: &[u8],
    differences: &mut Differences,
) -> Result<bool, NoMemory> {
    let (digits, place) = divide(b' ', line);
    let mut longer = Vec::from_slice(alloc, file)?;
    longer.extend_from_slice(&hex(alloc, digits)?)?;
    is_damaged(alloc, &longer, number(place), line, differences)
}

// Whether each changed file is read as its line says.
fn are_changed(
    alloc: Global,
    file: &[u8],
    row: Row<'_>,
    differences: &mut Differences,
) -> Result<bool, NoMemory> {
    let mut right = true;
    for line in row {
        let (word, rest) = divide(b' ', *line);
        if word == b"bad".as_slice() {
            right = is_changed(alloc, file, rest, false, differences)? && right;
        }
        if word == b"good".as_slice() {
            right = is_changed(alloc, file, rest, true, differences)? && right;
        }
        if word == b"more".as_slice() {
            right = is_longer(alloc, file, rest, differences)? && right;
        }
    }
    Ok(right)
}

// Whether the file is malformed without its last bytes, for each number of them: at offset 0 if the header is incomplete, else at the
// counts.
fn are_cut(alloc: Global, file: &[u8], differences: &mut Differences) -> Result<bool, NoMemory> {
    let mut right = true;
    for len in 0..file.len() {
        let place = if len < 32 { 0 } else { 24 };
        right = is_damaged(alloc, &file[..len], place, b"cut", differences)? && right;
    }
    Ok(right)
}

// Whether no stamp has an identity of a line `no-stamp`.
fn are_absent(stamps: &Stamps, row: Row<'_>) -> bool {
    let mut right = true;
    for line in row {
        let (word, rest) = divide(b' ', *line);
        if word == b"no-stamp".as_slice() {
            right = right && stamps.find(&id_of(rest).0).is_none();
        }
    }
    right
}

// The file in version 1.1, which differs from version 1.0 in the last byte of the magic.
fn new_version(alloc: Global, file: &[u8], row: Row<'_>) -> Result<Vec<u8>, NoMemory> {
    if has_line(row, b"old-version") {
        return with_bytes(alloc, file, 23, b"1");
    }
    Ok(Vec::from_slice(alloc, file)?)
}

// Whether the file has the stamps of the row, and writing them gives the file.
fn is_read(
    alloc: Global,
    file: &[u8],
    got: &Back,
    row: Row<'_>,
    differences: &mut Differences,
) -> Result<bool, NoMemory> {
    let stamps = stamps_of(alloc, row)?;
    if !have_same(alloc, &stamps, &got.stamps, differences)? || !are_absent(&got.stamps, row) {
        differences.say(b"other stamps", b"")?;
        return Ok(false);
    }
    let is_other = has_line(row, b"other-writer");
    Ok((got.written == new_version(alloc, file, row)?) != is_other)
}

const WORDS: &[Words] = &[&[
    b"hex",
    b"stamp",
    b"no-stamp",
    b"old-version",
    b"other-writer",
    b"damaged",
    b"bad",
    b"good",
    b"more",
]];

impl Trial for Files {
    fn words() -> &'static [Words] {
        WORDS
    }

    fn is_right(
        alloc: Global,
        row: Row<'_>,
        differences: &mut Differences,
    ) -> Result<bool, NoMemory> {
        let file = bytes_of(alloc, row)?;
        if let Some(place) = value(row, b"damaged") {
            return is_damaged(alloc, &file, number(place), b"file", differences);
        }
        match read_back(alloc, &file)? {
            Outcome::Read(got) => Ok(
                is_read(alloc, &file, &got, row, differences)?
                    && are_changed(alloc, &file, row, differences)?
                    && are_cut(alloc, &file, differences)?,
            ),
            Outcome::Damaged(at) => {
                differences.is_number(alloc, b"damaged", 0, at)?;
                Ok(false)
            }
        }
    }
}
