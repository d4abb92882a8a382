// Whole objects, of synthetic files and of synthetic files with some bytes changed.
use super::rows::{Change, analysis, changed, gives, is_nameless};
use elf_dynamic::kinds::{Dynamic, Object};
use elf_dynamic::object;
use elf_maker::Spec;
use elf_samples::{SampleFault, file_of, needing, texts};
use lib_types::{ABIS, Abi, Defect, NoMemory, Text, Texts};
use std::alloc::Global;
use std::test::Fail;
use tree_face::SureStore;

fn read(alloc: Global, bytes: Vec<u8>) -> Result<Option<Object>, Fail> {
    let mut held = Vec::new(alloc);
    held.push((Text::copy_of(alloc, b"key")?, Text::from_vec(bytes)))?;
    let mut store = SureStore::new(held);
    Ok(object(alloc, &mut store, b"key").ok())
}

fn is_text(found: &Option<Text>, want: Option<&str>) -> bool {
    match (found, want) {
        (Some(text), Some(want)) => text.as_bytes() == want.as_bytes(),
        (None, None) => true,
        _ => false,
    }
}

fn are_texts(found: &Texts, want: &[&str]) -> bool {
    let mut left = want;
    for text in found.as_slice() {
        if left.is_empty() || text.as_bytes() != left[0].as_bytes() {
            return false;
        }
        left = &left[1..];
    }
    left.is_empty()
}

// Each part of a dynamic section: two DT_NEEDED, DT_SONAME, DT_RPATH, an empty DT_RUNPATH, and DF_1_NODEFLIB.
fn parts(alloc: Global) -> Result<Dynamic, NoMemory> {
    Ok(Dynamic {
        soname: Some(Text::copy_of(alloc, b"libx.so.2")?),
        needed: texts(alloc, &["libm.so.6", "libc.so.6"])?,
        rpath: Some(Text::copy_of(alloc, b"/opt/old")?),
        runpath: Some(Text::copy_of(alloc, b"")?),
        nodeflib: true,
    })
}

// The file of a shared object with these DT_NEEDED.
fn needing_file(alloc: Global, abi: Abi, all: &[&str]) -> Result<Vec<u8>, SampleFault> {
    let spec = needing(abi, texts(alloc, all)?);
    file_of(alloc, &spec)
}

// Whether each part is read from a file of this ABI.
fn has_parts(found: &Option<Object>, abi: Abi) -> bool {
    let Some(object) = found else {
        return false;
    };
    let Some(dynamic) = &object.dynamic else {
        return false;
    };
    object.abi == abi
        && object.etype == 3
        && is_text(&dynamic.soname, Some("libx.so.2"))
        && are_texts(&dynamic.needed, &["libm.so.6", "libc.so.6"])
        && is_text(&dynamic.rpath, Some("/opt/old"))
        && is_text(&dynamic.runpath, Some(""))
        && dynamic.nodeflib
}

fn with_parts(alloc: Global, abi: Abi) -> Result<Vec<u8>, Fail> {
    let spec = Spec {
        abi,
        etype: 3,
        dynamic: parts(alloc)?,
    };
    Ok(file_of(alloc, &spec)?)
}

#[test]
fn each_part_of_an_object_is_read(rt: HostRuntime) -> Result<(), Fail> {
    let alloc = rt.alloc();
    for abi in ABIS {
        let found = read(alloc, with_parts(alloc, abi)?)?;
        assert!(rt; has_parts(&found, abi));
    }
    Ok(())
}

// Whether the object that was read has this soname.
fn has_soname(found: &Option<Object>, want: Option<&str>) -> bool {
    match found {
        Some(
            Object {
                dynamic: Some(dynamic),
                ..
            },
        ) => !dynamic.nodeflib && is_text(&dynamic.soname, want),
        _ => false,
    }
}

// The object that is read from a file with these DT_NEEDED after some bytes were changed.
fn read_changed(
    alloc: Global,
    abi: Abi,
    all: &[&str],
    changes: &[Change],
) -> Result<Option<Object>, Fail> {
    let bytes = needing_file(alloc, abi, all)?;
    read(alloc, changed(alloc, &bytes, changes)?)
}

// An ABI of each class, with the first bytes of the tags of the first three entries changed to those of DT_SONAME.
const SONAMES: &[(Abi, &[Change])] = &[
    (Abi::X86_64, &[(176, &[14]), (192, &[14]), (208, &[14])]),
    (Abi::I386, &[(116, &[14]), (124, &[14]), (132, &[14])]),
];

#[test]
fn of_two_sonames_the_first_counts(rt: HostRuntime) -> Result<(), Fail> {
    let alloc = rt.alloc();
    for (abi, sonames) in SONAMES {
        let found = read_changed(alloc, *abi, &["first", "second", "a/b"], *sonames)?;
        assert!(rt; has_soname(&found, Some("first")));
    }
    Ok(())
}

// The same with only the first entry changed.
const FIRST: &[(Abi, &[Change])] = &[(Abi::X86_64, &[(176, &[14])]), (Abi::I386, &[(116, &[14])])];

#[test]
fn an_empty_soname_is_none(rt: HostRuntime) -> Result<(), Fail> {
    let alloc = rt.alloc();
    for (abi, soname) in FIRST {
        let found = read_changed(alloc, *abi, &["", "x"], *soname)?;
        assert!(rt; has_soname(&found, None));
    }
    Ok(())
}

// A shared object that has only this DT_RPATH.
fn with_rpath(alloc: Global, text: &[u8]) -> Result<Spec, NoMemory> {
    Ok(Spec {
        abi: Abi::X86_64,
        etype: 3,
        dynamic: Dynamic {
            soname: None,
            needed: Texts::new(alloc),
            rpath: Some(Text::copy_of(alloc, text)?),
            runpath: None,
            nodeflib: false,
        },
    })
}

// Whether the object that was read has this DT_RPATH.
fn has_rpath(found: &Option<Object>, want: &[u8]) -> bool {
    match found {
        Some(
            Object {
                dynamic: Some(
                    Dynamic {
                        rpath: Some(rpath),
                        ..
                    },
                ),
                ..
            },
        ) => rpath.as_bytes() == want,
        _ => false,
    }
}

// Whether a DT_RPATH of this length is read.
fn is_read(alloc: Global, length: usize) -> Result<bool, Fail> {
    let text = vec![in alloc; b'a'; length]?;
    let spec = with_rpath(alloc, &text)?;
    let found = read(alloc, file_of(alloc, &spec)?)?;
    Ok(has_rpath(&found, &text))
}

const LENGTHS: &[usize] = &[1022, 1023, 1024, 1025, 2048, 4096, 65535];

#[test]
fn texts_may_be_longer_than_a_window(rt: HostRuntime) -> Result<(), Fail> {
    for length in LENGTHS {
        assert!(rt; is_read(rt.alloc(), *length)?, "{length}");
    }
    Ok(())
}

fn long_text(alloc: Global) -> Result<Vec<u8>, Fail> {
    let mut needed = Texts::new(alloc);
    needed.push(Text::from_vec(vec![in alloc; b'a'; 65535]?))?;
    needed.push(Text::copy_of(alloc, b"b")?)?;
    Ok(file_of(alloc, &needing(Abi::X86_64, needed))?)
}

// With five entries, the strings begin at 256: a NUL, 65535 bytes and their NUL, which is changed, then another text.
#[test]
fn a_text_has_its_nul_among_65536_bytes(rt: HostRuntime) -> Result<(), Fail> {
    let alloc = rt.alloc();
    let bytes = long_text(alloc)?;
    assert!(rt; is_nameless(&analysis(alloc, changed(alloc, &bytes, &[])?)?));
    let other = changed(alloc, &bytes, &[(256 + 65536, b"a")])?;
    assert!(rt;
        gives(
            alloc,
            other,
            Abi::X86_64,
            Some(Defect::BadString { tag: 1 })
        )?
    );
    Ok(())
}
