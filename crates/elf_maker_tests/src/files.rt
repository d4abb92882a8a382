// Synthetic files, byte by byte and field by field. Expected bytes and numbers are from the gABI.
use elf_samples::{I386_LIBZ, LIBZ, file_of, full, library};
use lib_types::Abi;
use std::alloc::Global;
use std::test::Fail;

// The strings of a full section.
const FULL_STRINGS: &[u8] = b"\0libc.so.6\0libm.so.6\0libfull.so.2\0/r\0/run\0";

// The little-endian number of `size` bytes at an offset.
fn number(bytes: &[u8], at: usize, size: usize) -> Option<u64> {
    let mut value = 0;
    for &byte in bytes.get(at..)?.get(..size)?.iter().rev() {
        value = value << 8 | u64::from(byte);
    }
    Some(value)
}

// The file of the library `libz.so.1` for an ABI.
fn libz(alloc: Global, abi: Abi) -> Result<Vec<u8>, Fail> {
    Ok(file_of(alloc, &library(alloc, abi, b"libz.so.1")?)?)
}

#[test]
fn a_library_for_x86_64_has_these_bytes(rt: HostRuntime) -> Result<(), Fail> {
    let bytes = libz(rt.alloc(), Abi::X86_64)?;
    assert!(rt; bytes.as_slice() == LIBZ.as_slice());
    Ok(())
}

#[test]
fn a_library_for_i386_has_these_bytes(rt: HostRuntime) -> Result<(), Fail> {
    let bytes = libz(rt.alloc(), Abi::I386)?;
    assert!(rt; bytes.as_slice() == I386_LIBZ.as_slice());
    Ok(())
}

// Whether these numbers of `size` bytes each follow one another at an offset.
fn has_numbers(bytes: &[u8], at: usize, size: usize, want: &[u64]) -> bool {
    let mut next = at;
    for &value in want {
        if number(bytes, next, size) != Some(value) {
            return false;
        }
        let Some(following) = next.checked_add(size) else {
            return false;
        };
        next = following;
    }
    true
}

// The offset of the first number, the size of each, and the numbers, which follow one another.
type Fields<'a> = (usize, usize, &'a [u64]);

fn has_fields(bytes: &[u8], fields: &[Fields<'_>]) -> bool {
    for (at, size, want) in fields {
        if !has_numbers(bytes, *at, *size, *want) {
            return false;
        }
    }
    true
}

// A file whose dynamic section has every part.
fn full_file(alloc: Global, abi: Abi, etype: u16) -> Result<Vec<u8>, Fail> {
    Ok(file_of(alloc, &full(alloc, abi, etype)?)?)
}

// An ABI, a type, and the fields that depend on them.
const ABIS: &[(Abi, u16, &[Fields<'_>])] = &[
    (
        Abi::I386,
        2,
        &[
            (4, 1, &[1, 1, 1, 0, 0, 0, 0, 0, 0, 0, 0, 0]),
            (16, 2, &[2, 3]),
            (36, 4, &[0]),
        ],
    ),
    (
        Abi::X86_64,
        3,
        &[
            (4, 1, &[2, 1, 1, 0, 0, 0, 0, 0, 0, 0, 0, 0]),
            (16, 2, &[3, 62]),
            (48, 4, &[0]),
        ],
    ),
    (
        Abi::X32,
        3,
        &[
            (4, 1, &[1, 1, 1, 0, 0, 0, 0, 0, 0, 0, 0, 0]),
            (16, 2, &[3, 62]),
            (36, 4, &[0]),
        ],
    ),
    (
        Abi::Aarch64,
        2,
        &[
            (4, 1, &[2, 1, 1, 0, 0, 0, 0, 0, 0, 0, 0, 0]),
            (16, 2, &[2, 183]),
            (48, 4, &[0]),
        ],
    ),
    (
        Abi::ArmHf,
        2,
        &[
            (4, 1, &[1, 1, 1, 0, 0, 0, 0, 0, 0, 0, 0, 0]),
            (16, 2, &[2, 40]),
            (36, 4, &[0x400]),
        ],
    ),
    (
        Abi::Riscv64D,
        3,
        &[
            (4, 1, &[2, 1, 1, 0, 0, 0, 0, 0, 0, 0, 0, 0]),
            (16, 2, &[3, 243]),
            (48, 4, &[4]),
        ],
    ),
];

#[test]
fn each_abi_has_its_class_machine_and_flags(rt: HostRuntime) -> Result<(), Fail> {
    for (abi, etype, fields) in ABIS {
        let bytes = full_file(rt.alloc(), *abi, *etype)?;
        assert!(rt; bytes.starts_with(b"\x7fELF"));
        assert!(rt; has_fields(&bytes, *fields));
        assert!(rt; has_numbers(&bytes, 20, 4, &[1]));
    }
    Ok(())
}

const CLASS_1: &[Fields<'_>] = &[
    // e_entry, e_phoff, e_shoff and e_flags, then the six of 2 bytes
    (24, 4, &[0, 52, 0, 0]),
    (40, 2, &[52, 32, 2, 0, 0, 0]),
    // both program headers
    (52, 4, &[1, 0, 0x1000, 0x1000, 230, 230, 4, 0x1000]),
    (84, 4, &[2, 116, 0x1074, 0x1074, 72, 72, 4, 4]),
    // the entries
    (
        116,
        4,
        &[
            1, 1, 1, 11, 14, 21, 15, 34, 29, 37, 0x6ffffffb, 0x800, 5, 0x10bc, 10, 42, 0, 0,
        ],
    ),
];

#[test]
fn a_full_file_of_class_1_has_these_fields(rt: HostRuntime) -> Result<(), Fail> {
    let bytes = full_file(rt.alloc(), Abi::X32, 3)?;
    assert!(rt; bytes.len() == 230);
    assert!(rt; has_fields(&bytes, CLASS_1));
    assert!(rt; bytes.ends_with(FULL_STRINGS));
    Ok(())
}

const CLASS_2: &[Fields<'_>] = &[
    // e_entry, e_phoff and e_shoff, e_flags, then the six of 2 bytes
    (24, 8, &[0, 64, 0]),
    (48, 4, &[0]),
    (52, 2, &[64, 56, 2, 0, 0, 0]),
    // both program headers
    (64, 4, &[1, 4]),
    (72, 8, &[0, 0x1000, 0x1000, 362, 362, 0x1000]),
    (120, 4, &[2, 4]),
    (128, 8, &[176, 0x10b0, 0x10b0, 144, 144, 8]),
    // the entries
    (
        176,
        8,
        &[
            1, 1, 1, 11, 14, 21, 15, 34, 29, 37, 0x6ffffffb, 0x800, 5, 0x1140, 10, 42, 0, 0,
        ],
    ),
];

#[test]
fn a_full_file_of_class_2_has_these_fields(rt: HostRuntime) -> Result<(), Fail> {
    let bytes = full_file(rt.alloc(), Abi::Aarch64, 2)?;
    assert!(rt; bytes.len() == 362);
    assert!(rt; has_fields(&bytes, CLASS_2));
    assert!(rt; bytes.ends_with(FULL_STRINGS));
    Ok(())
}
