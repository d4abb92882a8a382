// Truncated files and long files.
use super::rows::{Change, analysis, changed, gives, is, is_nameless, libz};
use crate::Sparse;
use elf_dynamic::analyse;
use lib_types::{Abi, Analysis, Defect};
use std::alloc::Global;
use std::process::Abort;
use std::test::Fail;

// The first bytes of a file.
fn cut(alloc: Global, bytes: &[u8], length: usize) -> Result<Vec<u8>, Fail> {
    let mut front = Vec::from_slice(alloc, bytes)?;
    front.truncate(length);
    Ok(front)
}

fn short(length: usize) -> Defect {
    if length < 4 {
        Defect::NotElf
    } else {
        Defect::TooShort {
            length: length as u64,
        }
    }
}

// A library truncated to less than its header, and to its header alone.
fn check_cuts(rt: &impl Abort, alloc: Global, abi: Abi, header: usize) -> Result<(), Fail> {
    let base = libz(alloc, abi)?;
    for length in 0..header {
        let bytes = cut(alloc, &base, length)?;
        assert!(rt; gives(alloc, bytes, abi, Some(short(length)))?, "{length}");
    }
    let bytes = cut(alloc, &base, header)?;
    assert!(rt;
        gives(alloc, bytes, abi, Some(Defect::BadPhdrs))?,
        "{header}"
    );
    Ok(())
}

#[test]
fn short_files_say_their_length(rt: HostRuntime) -> Result<(), Fail> {
    check_cuts(&rt, rt.alloc(), Abi::X86_64, 64)?;
    check_cuts(&rt, rt.alloc(), Abi::I386, 52)
}

// A change, the length to which the changed file is truncated, and the defect.
const SHORT: &[(Change, usize, Defect)] = &[
    ((4, &[3]), 15, Defect::TooShort { length: 15 }),
    ((5, &[2]), 20, Defect::BadData { value: 2 }),
    ((18, &[0]), 63, Defect::TooShort { length: 63 }),
];

// The first bytes of the x86-64 library after a change.
fn front(alloc: Global, change: Change, length: usize) -> Result<Vec<u8>, Fail> {
    let wide = libz(alloc, Abi::X86_64)?;
    cut(alloc, &changed(alloc, &wide, &[change])?, length)
}

#[test]
fn the_first_defect_of_a_short_file_counts(rt: HostRuntime) -> Result<(), Fail> {
    let alloc = rt.alloc();
    for (change, length, want) in SHORT {
        let bytes = front(alloc, *change, *length)?;
        assert!(rt; gives(alloc, bytes, Abi::X86_64, Some(*want))?, "{length}");
    }
    Ok(())
}

// The analysis of a library followed by zeros, the number of bytes that are read, and the number of readings.
fn sparse(alloc: Global) -> Result<(Option<Analysis>, u64, u64), Fail> {
    let mut store = Sparse::new(libz(alloc, Abi::X86_64)?);
    let found = analyse(alloc, &mut store, b"libz.so.1").ok();
    Ok((found, store.taken(), store.readings()))
}

#[test]
fn a_file_of_2_to_the_40_bytes_is_read_in_windows(rt: HostRuntime) -> Result<(), Fail> {
    let (found, taken, readings) = sparse(rt.alloc())?;
    assert!(rt; is(&found, Abi::X86_64, None));
    assert!(rt; taken <= 1024);

    // The header, both program headers, the section, and the text.
    assert!(rt; readings == 4);
    Ok(())
}

// An ELF64 file with this number of program headers. The last one is that of the dynamic section.
fn many_headers(alloc: Global, count: u16) -> Result<Vec<u8>, Fail> {
    let mut bytes = cut(alloc, &libz(alloc, Abi::X86_64)?, 64)?;
    for _ in 1..count {
        bytes.extend_from_slice(&[0; 56])?;
    }
    let mut last = [0u8; 56];
    last[0] = 2;
    bytes.extend_from_slice(&last)?;
    let [low, high] = count.to_le_bytes();
    if bytes.len() >= 64 {
        bytes[56] = low;
        bytes[57] = high;
    }
    Ok(bytes)
}

#[test]
fn as_many_program_headers_as_there_can_be_are_read(rt: HostRuntime) -> Result<(), Fail> {
    let alloc = rt.alloc();
    let found = analysis(alloc, many_headers(alloc, 65534)?)?;
    assert!(rt; is_nameless(&found));
    Ok(())
}

// The headers, and the section with its strings.
fn parts(bytes: &[u8]) -> (&[u8], &[u8]) {
    bytes.split_at_checked(176).unwrap_or((bytes, &[]))
}

// An ELF64 file whose dynamic section has 2^20 entries. Those of DT_SONAME and of the string table are the last ones.
fn many_entries(alloc: Global) -> Result<Vec<u8>, Fail> {
    let entries: u64 = 1 << 20;
    let base = libz(alloc, Abi::X86_64)?;
    let (front, back) = parts(&base);
    let mut bytes = Vec::from_slice(alloc, front)?;
    for _ in 4..entries {
        bytes.extend_from_slice(&[9, 0, 0, 0, 0, 0, 0, 0, 9, 0, 0, 0, 0, 0, 0, 0])?;
    }
    bytes.extend_from_slice(back)?;
    let size = 16 * entries;
    let strings = 0x1000 + 176 + size;
    let length = 176 + size + 11;
    let at = (176 + size - 48) as usize;
    for (place, number) in [(96, length), (152, size), (at + 8, strings)] {
        for (i, byte) in number.to_le_bytes().iter().enumerate() {
            if place + i < bytes.len() {
                bytes[place + i] = *byte;
            }
        }
    }
    Ok(bytes)
}

#[test]
fn a_section_of_2_to_the_20_entries_is_read(rt: HostRuntime) -> Result<(), Fail> {
    let alloc = rt.alloc();
    assert!(rt; gives(alloc, many_entries(alloc)?, Abi::X86_64, None)?);
    Ok(())
}
