//! Many stamps.
use crate::lines::{Outcome, have_same, read_back};
use aux_cache::{Stamp, Stamps};
use lib_types::{Abi, Analysis, NoMemory, Text};
use std::alloc::Global;
use table_rows::{Differences, Row, Trial, Words, count};
use tree_face::Id;

/// A row has the number of stamps, which are put in order, and the number of different sonames. The test builds their file by its format.
/// The file has the stamps, and writing the stamps gives the file.
pub(crate) struct Series;

fn soname(alloc: Global, number: u64) -> Result<Text, NoMemory> {
    let soname = format!(in alloc; "lib{number}.so.1")?;
    Text::copy_of(alloc, soname.as_bytes())
}

// The index of a stamp's soname.
fn soname_of(number: u64, sonames: u64) -> u64 {
    if sonames == 0 { 0 } else { number % sonames }
}

fn stamps_of(alloc: Global, stamps: u64, sonames: u64) -> Result<Stamps, NoMemory> {
    let mut made = Stamps::new(alloc);
    for number in 0..stamps {
        made.insert(Stamp {
            id: Id {
                dev: 1,
                inode: number,
                ctime: 2,
                size: 3,
            },
            analysis: Analysis::Lib {
                abi: Abi::Aarch64,
                soname: Some(soname(alloc, soname_of(number, sonames))?),
            },
        })?;
    }
    Ok(made)
}

// The strings, and the offset of each soname.
#[derive(Drop)]
struct Strings {
    bytes: Vec<u8>,
    offsets: Vec<u32>,
}

fn strings_of(alloc: Global, sonames: u64) -> Result<Strings, NoMemory> {
    let mut bytes = Vec::new(alloc);
    let mut offsets = Vec::new(alloc);
    bytes.push(0)?;
    for number in 0..sonames {
        offsets.push(u32::try_from(bytes.len()).unwrap_or(0))?;
        bytes.extend_from_slice(soname(alloc, number)?.as_bytes())?;
        bytes.push(0)?;
    }
    Ok(Strings { bytes, offsets })
}

fn put_record(out: &mut Vec<u8>, inode: u64, offset: u32) -> Result<(), NoMemory> {
    for value in [inode, 2, 3, 1] {
        let value: u64 = value;
        out.extend_from_slice(&value.to_le_bytes())?;
    }
    for value in [0x0a03, offset, 0, 0] {
        let value: u32 = value;
        out.extend_from_slice(&value.to_le_bytes())?;
    }
    Ok(())
}

fn file_of(alloc: Global, stamps: u64, sonames: u64) -> Result<Vec<u8>, NoMemory> {
    let strings = strings_of(alloc, sonames)?;
    let len = u32::try_from(strings.bytes.len()).unwrap_or(0);
    let mut file = Vec::new(alloc);
    file.extend_from_slice(b"glibc-ld.so.auxcache-1.1")?;
    file.extend_from_slice(&u32::try_from(stamps).unwrap_or(0).to_le_bytes())?;
    file.extend_from_slice(&len.to_le_bytes())?;
    for number in 0..stamps {
        let index = soname_of(number, sonames) as usize;
        let offset = match strings.offsets.as_slice().get(index) {
            Some(offset) => *offset,
            None => 0,
        };
        put_record(&mut file, number, offset)?;
    }
    file.extend_from_slice(&strings.bytes)?;
    Ok(file)
}

const WORDS: &[Words] = &[&[b"stamps", b"sonames"]];

impl Trial for Series {
    fn words() -> &'static [Words] {
        WORDS
    }

    fn is_right(
        alloc: Global,
        row: Row<'_>,
        differences: &mut Differences,
    ) -> Result<bool, NoMemory> {
        let (stamps, sonames) = (count(row, b"stamps"), count(row, b"sonames"));
        let file = file_of(alloc, stamps, sonames)?;
        let made = stamps_of(alloc, stamps, sonames)?;
        match read_back(alloc, &file)? {
            Outcome::Read(got) => {
                Ok(have_same(alloc, &made, &got.stamps, differences)? && got.written == file)
            }
            Outcome::Damaged(at) => {
                differences.is_number(alloc, b"damaged", 0, at)?;
                Ok(false)
            }
        }
    }
}
