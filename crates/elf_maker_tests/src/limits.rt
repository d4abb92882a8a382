// The longest files and texts.
use elf_maker::is_spec;
use elf_samples::{SampleFault, file_of, library, needing};
use lib_types::{Abi, NoMemory, Text, Texts};
use std::alloc::Global;
use std::test::Fail;

const LONGEST: usize = 65535;

fn text_of(alloc: Global, size: usize) -> Result<Text, NoMemory> {
    let mut bytes = Vec::new(alloc);
    bytes.resize(size, b'x')?;
    Ok(Text::from_vec(bytes))
}

// `count` texts of 65535 bytes, and one more of this size.
fn long_texts(alloc: Global, count: usize, size: usize) -> Result<Texts, NoMemory> {
    let mut texts = Texts::new(alloc);
    for _ in 0..count {
        texts.push(text_of(alloc, LONGEST)?)?;
    }
    texts.push(text_of(alloc, size)?)?;
    Ok(texts)
}

// The length of a file with `count` DT_NEEDED of 65535 bytes and one of this size. It is None if the file is too long.
fn length(alloc: Global, abi: Abi, count: usize, size: usize) -> Result<Option<usize>, Fail> {
    let spec = needing(abi, long_texts(alloc, count, size)?);
    match file_of(alloc, &spec) {
        Ok(bytes) => Ok(Some(bytes.len())),
        Err(SampleFault::TooLong) => Ok(None),
        Err(fault) => Err(fault.into()),
    }
}

#[test]
fn a_file_of_class_1_has_at_most_2_24_bytes(rt: HostRuntime) -> Result<(), Fail> {
    let alloc = rt.alloc();

    // Headers, 259 entries of 8 bytes, one NUL, and 256 texts with theirs.
    assert!(rt; length(alloc, Abi::I386, 255, 63346)? == Some(1 << 24));
    assert!(rt; length(alloc, Abi::I386, 255, 63347)?.is_none());
    Ok(())
}

#[test]
fn a_file_of_class_2_has_at_most_2_24_bytes(rt: HostRuntime) -> Result<(), Fail> {
    let alloc = rt.alloc();

    // Headers, 259 entries of 16 bytes, one NUL, and 256 texts with theirs.
    assert!(rt; length(alloc, Abi::X86_64, 255, 61214)? == Some(1 << 24));
    assert!(rt; length(alloc, Abi::X86_64, 255, 61215)?.is_none());
    Ok(())
}

#[test]
fn needed_texts_of_2_24_bytes_are_too_many(rt: HostRuntime) -> Result<(), Fail> {
    assert!(rt; length(rt.alloc(), Abi::X86_64, 256, 256)?.is_none());
    Ok(())
}

// Whether a library with this soname is not a specification, and has no file.
fn is_no_name(alloc: Global, soname: &str) -> Result<bool, Fail> {
    let spec = library(alloc, Abi::X86_64, soname.as_bytes())?;
    Ok(!is_spec(&spec) && matches!(file_of(alloc, &spec), Err(SampleFault::NoSpec)))
}

// Whether a library of this type is a specification.
fn is_type(alloc: Global, etype: u16) -> Result<bool, Fail> {
    let mut spec = library(alloc, Abi::X86_64, b"libz.so.1")?;
    spec.etype = etype;
    Ok(is_spec(&spec))
}

// Whether an object with a DT_NEEDED of this length is a specification.
fn is_length(alloc: Global, size: usize) -> Result<bool, Fail> {
    Ok(is_spec(&needing(Abi::X86_64, long_texts(alloc, 0, size)?)))
}

const NO_NAMES: &[&str] = &["", ".", "..", "a/b", "a\0b"];

const NO_TYPES: &[u16] = &[0, 1, 4, 258];

#[test]
fn what_cannot_be_made_is_named(rt: HostRuntime) -> Result<(), Fail> {
    let alloc = rt.alloc();
    for soname in NO_NAMES {
        assert!(rt; is_no_name(alloc, soname)?, "{soname}");
    }
    for etype in NO_TYPES {
        assert!(rt; !is_type(alloc, *etype)?, "{etype}");
    }
    assert!(rt; is_length(alloc, LONGEST)?);
    assert!(rt; !is_length(alloc, LONGEST + 1)?);
    Ok(())
}
