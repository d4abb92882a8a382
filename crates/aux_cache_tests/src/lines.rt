//! Stamps in the notation of the rows.
use aux_cache::{AuxFault, STAMPS_MAX, Stamp, Stamps, read, write};
use lib_types::{Abi, Analysis, Defect, NoMemory, Text};
use std::alloc::Global;
use table_rows::{Differences, Row, divide, number};
use tree_face::Id;

/// The identity `DEV INODE CTIME SIZE`, and the rest of the line.
pub(crate) fn id_of(line: &[u8]) -> (Id, &[u8]) {
    let (dev, rest) = divide(b' ', line);
    let (inode, rest) = divide(b' ', rest);
    let (ctime, rest) = divide(b' ', rest);
    let (size, rest) = divide(b' ', rest);
    let id = Id {
        dev: number(dev),
        inode: number(inode),
        ctime: number(ctime),
        size: number(size),
    };
    (id, rest)
}

// The defect with this name and this number, if it has one.
fn defect_of(text: &[u8]) -> Defect {
    let (name, digits) = divide(b' ', text);
    let number = number(digits);
    let defects = [
        Defect::NotElf,
        Defect::TooShort { length: number },
        Defect::BadClass { value: number },
        Defect::BadData { value: number },
        Defect::BadMachine { number },
        Defect::NotShared { etype: number },
        Defect::BadPhdrs,
        Defect::NoDynamic,
        Defect::DynOutside,
        Defect::NoStrtab,
        Defect::OutsideLoad,
        Defect::BadString { tag: number },
        Defect::BadSoname,
    ];
    for defect in &defects {
        if defect.name() == name {
            return *defect;
        }
    }
    Defect::Unsearchable
}

// `ABI SONAME`, where `-` means no soname, or `not DEFECT`.
fn analysis_of(alloc: Global, text: &[u8]) -> Result<Analysis, NoMemory> {
    let (word, rest) = divide(b' ', text);
    if word == b"not".as_slice() {
        return Ok(Analysis::Not(defect_of(rest)));
    }
    let soname = if rest == b"-".as_slice() {
        None
    } else {
        Some(Text::copy_of(alloc, rest)?)
    };
    let abi = Abi::of_word(word).unwrap_or(Abi::X86_64);
    Ok(Analysis::Lib { abi, soname })
}

// `DEV INODE CTIME SIZE` and an analysis
fn stamp_of(alloc: Global, line: &[u8]) -> Result<Stamp, NoMemory> {
    let (id, rest) = id_of(line);
    let analysis = analysis_of(alloc, rest)?;
    Ok(Stamp { id, analysis })
}

/// The stamps of the lines `stamp`, put in reverse order. Each replaces an earlier one with its identity.
pub(crate) fn stamps_of(alloc: Global, row: Row<'_>) -> Result<Stamps, NoMemory> {
    let mut stamps = Stamps::new(alloc);
    for line in row.iter().rev() {
        let (word, rest) = divide(b' ', *line);
        if word == b"stamp".as_slice() {
            stamps.insert(Stamp {
                id: id_of(rest).0,
                analysis: Analysis::Not(Defect::NotElf),
            })?;
            stamps.insert(stamp_of(alloc, rest)?)?;
        }
    }
    Ok(stamps)
}

fn same_sonames(a: &Option<Text>, b: &Option<Text>) -> bool {
    match a {
        Some(first) => match b {
            Some(second) => first.as_bytes() == second.as_bytes(),
            None => false,
        },
        None => b.is_none(),
    }
}

fn same_analyses(a: &Analysis, b: &Analysis) -> bool {
    match a {
        Analysis::Lib { abi, soname } => match b {
            Analysis::Lib {
                abi: other_abi,
                soname: other_soname,
            } => abi == other_abi && same_sonames(soname, other_soname),
            Analysis::Not(_) => false,
        },
        Analysis::Not(defect) => match b {
            Analysis::Lib { .. } => false,
            Analysis::Not(other) => defect == other,
        },
    }
}

fn is_same(a: &Stamp, b: &Stamp) -> bool {
    a.id == b.id && same_analyses(&a.analysis, &b.analysis)
}

// Whether both have the same stamp at this index, and for its identity.
fn same_at(stamps: &Stamps, others: &Stamps, index: usize) -> bool {
    let Some(stamp) = stamps.get(index) else {
        return false;
    };
    let same = match others.get(index) {
        Some(other) => is_same(stamp, other),
        None => false,
    };
    let found = match others.find(&stamp.id) {
        Some(other) => is_same(stamp, other),
        None => false,
    };
    same && found
}

/// Whether both have the same stamps in the same order, and find each by its identity.
pub(crate) fn have_same(
    alloc: Global,
    want: &Stamps,
    got: &Stamps,
    differences: &mut Differences,
) -> Result<bool, NoMemory> {
    let mut same = differences.is_number(alloc, b"stamps", want.len() as u64, got.len() as u64)?;
    for index in 0..want.len() {
        same = same && same_at(want, got, index);
    }
    Ok(same)
}

/// The stamps that are read from a file, and the file that is written from them.
#[derive(Drop)]
pub(crate) struct Back {
    pub(crate) stamps: Stamps,
    pub(crate) written: Vec<u8>,
}

/// The stamps and the file written from them, or the offset at which the file is malformed.
#[derive(Drop)]
pub(crate) enum Outcome {
    Read(Back),
    Damaged(u64),
}

/// Reads a file, and writes it again.
pub(crate) fn read_back(alloc: Global, file: &[u8]) -> Result<Outcome, NoMemory> {
    match read(alloc, file) {
        Ok(stamps) => {
            if stamps.len() > STAMPS_MAX {
                return Err(NoMemory);
            }
            let written = write(alloc, &stamps)?;
            Ok(Outcome::Read(Back { stamps, written }))
        }
        Err(AuxFault::Damaged { at }) => Ok(Outcome::Damaged(at)),
        Err(AuxFault::NoMemory) => Err(NoMemory),
    }
}
