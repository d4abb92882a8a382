// Caches that are written part by part.
use std::alloc::Global;
use std::test::Fail;

pub(crate) const GENERATOR: &[u8] = b"ldconfig (image profile) release version 1";

/// A change of four bytes.
pub(crate) type Change = (usize, u32);

pub(crate) fn joined(alloc: Global, parts: &[&[u8]]) -> Result<Vec<u8>, Fail> {
    let mut bytes = Vec::new(alloc);
    for part in parts {
        bytes.extend_from_slice(*part)?;
    }
    Ok(bytes)
}

/// One library, with two separate strings: 170 bytes.
pub(crate) fn one_library(alloc: Global) -> Result<Vec<u8>, Fail> {
    joined(
        alloc,
        &[
            b"glibc-ld.so.cache1.1",
            b"\x01\0\0\0\x1d\0\0\0\x02\0\0\0\x68\0\0\0\0\0\0\0\0\0\0\0\0\0\0\0",
            b"\x03\x03\0\0\x48\0\0\0\x52\0\0\0\0\0\0\0\0\0\0\0\0\0\0\0",
            b"libz.so.1\0/usr/lib/libz.so.1\0\0\0\0",
            b"\x74\x21\xa4\xea\x01\0\0\0\0\0\0\0\0\0\0\0\x80\0\0\0\x2a\0\0\0",
            GENERATOR,
        ],
    )
}

/// One library, whose name is the end of its path: 158 bytes.
pub(crate) fn one_shared(alloc: Global) -> Result<Vec<u8>, Fail> {
    joined(
        alloc,
        &[
            b"glibc-ld.so.cache1.1",
            b"\x01\0\0\0\x13\0\0\0\x02\0\0\0\x5c\0\0\0\0\0\0\0\0\0\0\0\0\0\0\0",
            b"\x03\x03\0\0\x51\0\0\0\x48\0\0\0\0\0\0\0\0\0\0\0\0\0\0\0",
            b"/usr/lib/libz.so.1\0\0",
            b"\x74\x21\xa4\xea\x01\0\0\0\0\0\0\0\0\0\0\0\x74\0\0\0\x2a\0\0\0",
            GENERATOR,
        ],
    )
}

/// A library in `/lib` and in a subdirectory for x86-64-v3: 262 bytes.
pub(crate) fn two_places(alloc: Global) -> Result<Vec<u8>, Fail> {
    joined(
        alloc,
        &[
            b"glibc-ld.so.cache1.1",
            b"\x02\0\0\0\x4d\0\0\0\x02\0\0\0\xb0\0\0\0\0\0\0\0\0\0\0\0\0\0\0\0",
            b"\x03\x03\0\0\x60\0\0\0\x6a\0\0\0\0\0\0\0\0\0\0\0\0\0\0\x40",
            b"\x03\x03\0\0\x60\0\0\0\x94\0\0\0\0\0\0\0\0\0\0\0\0\0\0\0",
            b"libv.so.1\0/usr/lib/glibc-hwcaps/x86-64-v3/libv.so.1\0/lib/libv.so.1\0x86-64-v3\0\0\0\0",
            b"\x74\x21\xa4\xea\x02\0\0\0",
            b"\0\0\0\0\0\0\0\0\xdc\0\0\0\x2a\0\0\0",
            b"\x01\0\0\0\0\0\0\0\xd8\0\0\0\x04\0\0\0",
            b"\xa3\0\0\0",
            GENERATOR,
        ],
    )
}

/// A library for x86-64 and for i386.
pub(crate) fn two_abis(alloc: Global) -> Result<Vec<u8>, Fail> {
    joined(
        alloc,
        &[
            b"glibc-ld.so.cache1.1",
            b"\x02\0\0\0\x2a\0\0\0\x02\0\0\0\x8c\0\0\0\0\0\0\0\0\0\0\0\0\0\0\0",
            b"\x03\x03\0\0\x60\0\0\0\x6a\0\0\0\0\0\0\0\0\0\0\0\0\0\0\0",
            b"\x03\0\0\0\x60\0\0\0\x7b\0\0\0\0\0\0\0\0\0\0\0\0\0\0\0",
            b"libq.so.1\0/lib64/libq.so.1\0/lib/libq.so.1\0\0\0",
            b"\x74\x21\xa4\xea\x01\0\0\0\0\0\0\0\0\0\0\0\xa4\0\0\0\x2a\0\0\0",
            GENERATOR,
        ],
    )
}

pub(crate) fn set_byte(bytes: &mut Vec<u8>, at: usize, value: u8) {
    if let Some(byte) = bytes.get_mut(at) {
        *byte = value;
    }
}

/// Writes a number of four bytes at an offset.
pub(crate) fn set_number(bytes: &mut Vec<u8>, at: usize, number: u32) {
    let parts = number.to_le_bytes();
    for index in 0..4 {
        set_byte(bytes, at.saturating_add(index), parts[index]);
    }
}

pub(crate) fn change(bytes: &mut Vec<u8>, changes: &[Change]) {
    for (at, number) in changes {
        set_number(bytes, *at, *number);
    }
}
