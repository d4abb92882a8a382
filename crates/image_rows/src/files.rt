//! The files of a row's store.
use crate::lines::{change, own_lines};
use elf_dynamic::kinds::Dynamic;
use elf_maker::Spec;
use elf_samples::{SampleFault, file_of};
use lib_types::{Abi, NoMemory, Text};
use std::alloc::Global;
use table_rows::{
    Differences, Row, Words, calls, divide, has_line, owned_value, text_below, value, values,
};
use tree_face::MemStore;

/// The words of the store's files: `library KEY SONAME`, `nameless KEY` (a library without DT_SONAME), `program KEY`, `static KEY` (a
/// program without a dynamic section), `file KEY` with its text. Below an ELF file: `abi` unless it is x86-64, `needs` with each needed
/// name, `rpath`, `runpath`, `nodeflib`. Below any file: `changed AT BYTE ..` and `cut SIZE`.
pub const FILES: Words = &[
    b"library",
    b"nameless",
    b"program",
    b"static",
    b"file",
    b"abi",
    b"needs",
    b"rpath",
    b"runpath",
    b"nodeflib",
    b"changed",
    b"cut",
];

/// The word for a store call that fails: its number, counted from 0.
pub const STORE_FAILS: Words = &[b"store-fails"];

/// Keys with their contents.
pub type Pairs = Vec<(Text, Text)>;

#[derive(Clone, Copy, PartialEq, Eq)]
enum Kind {
    Library,
    Program,
    Static,
    Plain,
}

fn kind_of(word: &[u8]) -> Option<Kind> {
    if word == b"library".as_slice() || word == b"nameless".as_slice() {
        Some(Kind::Library)
    } else if word == b"program".as_slice() {
        Some(Kind::Program)
    } else if word == b"static".as_slice() {
        Some(Kind::Static)
    } else if word == b"file".as_slice() {
        Some(Kind::Plain)
    } else {
        None
    }
}

fn optional(alloc: Global, text: &[u8]) -> Result<Option<Text>, NoMemory> {
    if text.is_empty() {
        return Ok(None);
    }
    Ok(Some(Text::copy_of(alloc, text)?))
}

fn spec_of(alloc: Global, kind: Kind, soname: &[u8], lines: Row<'_>) -> Result<Spec, NoMemory> {
    let word = value(lines, b"abi").unwrap_or(b"x86-64");
    Ok(Spec {
        abi: Abi::of_word(word).unwrap_or(Abi::X86_64),
        etype: if kind == Kind::Library { 3 } else { 2 },
        dynamic: Dynamic {
            soname: optional(alloc, soname)?,
            needed: values(alloc, lines, b"needs")?,
            rpath: owned_value(alloc, lines, b"rpath")?,
            runpath: owned_value(alloc, lines, b"runpath")?,
            nodeflib: has_line(lines, b"nodeflib"),
        },
    })
}

// The offset of the second program header's type in an ELF64 file. That program header is PT_DYNAMIC.
const DYNAMIC_TYPE: usize = 64 + 56;

fn without_dynamic(bytes: &mut Vec<u8>) {
    if let Some(byte) = bytes.get_mut(DYNAMIC_TYPE) {
        *byte = 0;
    }
}

fn content_of(
    alloc: Global,
    kind: Kind,
    soname: &[u8],
    lines: Row<'_>,
) -> Result<Vec<u8>, SampleFault> {
    if kind == Kind::Plain {
        return Ok(text_below(alloc, lines)?);
    }
    let spec = spec_of(alloc, kind, soname, lines)?;
    let mut bytes = file_of(alloc, &spec)?;
    if kind == Kind::Static {
        without_dynamic(&mut bytes);
    }
    Ok(bytes)
}

fn push(held: &mut Pairs, key: Text, content: Text) -> Result<(), NoMemory> {
    held.push((key, content))?;
    Ok(())
}

// Puts the file of this line, if it has one. `lines` are the lines after it.
fn put(alloc: Global, held: &mut Pairs, line: &[u8], lines: Row<'_>) -> Result<(), SampleFault> {
    let (word, rest) = divide(b' ', line);
    let Some(kind) = kind_of(word) else {
        return Ok(());
    };
    let (key, soname) = divide(b' ', rest);
    let lines = own_lines(lines);
    let mut content = content_of(alloc, kind, soname, lines)?;
    change(&mut content, lines);
    push(held, Text::copy_of(alloc, key)?, Text::from_vec(content))?;
    Ok(())
}

/// The files of a row's store.
pub fn held_of(alloc: Global, row: Row<'_>) -> Result<Pairs, SampleFault> {
    let mut held = Vec::new(alloc);
    for (index, line) in row.iter().enumerate() {
        put(alloc, &mut held, line, &row[index + 1..])?;
    }
    Ok(held)
}

/// A store with the files of a row.
pub fn store_of(alloc: Global, row: Row<'_>) -> Result<MemStore, SampleFault> {
    let fail = calls(alloc, row, b"store-fails")?;
    Ok(MemStore::new(alloc, held_of(alloc, row)?, fail))
}

/// If a row's trial failed because a file can't be generated, says so.
pub fn is_made(
    tried: Result<bool, SampleFault>,
    differences: &mut Differences,
) -> Result<bool, NoMemory> {
    match tried {
        Ok(is_right) => Ok(is_right),
        Err(SampleFault::NoMemory) => Err(NoMemory),
        Err(_) => {
            differences.say(b"no such file can be made", b"")?;
            Ok(false)
        }
    }
}
