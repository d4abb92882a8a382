// The ELF information of two libraries after some of their bytes were changed.
use elf_dynamic::analyse;
use elf_samples::{SampleFault, library_file};
use lib_types::{Abi, Analysis, Defect, Text};
use std::alloc::Global;
use std::process::Abort;
use std::test::Fail;
use tree_face::SureStore;

pub type Change = (usize, &'static [u8]);

// The changes in the ELF64 file, those in the ELF32 file, and the defect of both then.
type Row = (&'static [Change], &'static [Change], Option<Defect>);

const IDENTIFICATION: &[Row] = &[
    (&[], &[], None),
    (&[(0, &[0x7e])], &[(0, &[0x7e])], Some(Defect::NotElf)),
    (&[(3, b"G")], &[(3, b"G")], Some(Defect::NotElf)),
    (
        &[(4, &[0])],
        &[(4, &[0])],
        Some(Defect::BadClass { value: 0 }),
    ),
    (
        &[(4, &[3])],
        &[(4, &[3])],
        Some(Defect::BadClass { value: 3 }),
    ),
    (
        &[(4, &[255])],
        &[(4, &[255])],
        Some(Defect::BadClass { value: 255 }),
    ),
    (
        &[(5, &[0])],
        &[(5, &[0])],
        Some(Defect::BadData { value: 0 }),
    ),
    (
        &[(5, &[2])],
        &[(5, &[2])],
        Some(Defect::BadData { value: 2 }),
    ),
    (
        &[(5, &[255])],
        &[(5, &[255])],
        Some(Defect::BadData { value: 255 }),
    ),
    (&[(6, &[9])], &[(6, &[9])], None),
];

const TYPES: &[Row] = &[
    (
        &[(18, &[0, 0])],
        &[(18, &[0, 0])],
        Some(Defect::BadMachine { number: 0 }),
    ),
    (
        &[(18, &[2, 0])],
        &[(18, &[2, 0])],
        Some(Defect::BadMachine { number: 2 }),
    ),
    (
        &[(18, &[255, 255])],
        &[(18, &[255, 255])],
        Some(Defect::BadMachine { number: 65535 }),
    ),
    (
        &[(16, &[0, 0])],
        &[(16, &[0, 0])],
        Some(Defect::NotShared { etype: 0 }),
    ),
    (
        &[(16, &[1])],
        &[(16, &[1])],
        Some(Defect::NotShared { etype: 1 }),
    ),
    (
        &[(16, &[2])],
        &[(16, &[2])],
        Some(Defect::NotShared { etype: 2 }),
    ),
    (
        &[(16, &[4])],
        &[(16, &[4])],
        Some(Defect::NotShared { etype: 4 }),
    ),
    (
        &[(16, &[255, 255])],
        &[(16, &[255, 255])],
        Some(Defect::NotShared { etype: 65535 }),
    ),
];

const HEADERS: &[Row] = &[
    (&[(56, &[4])], &[(44, &[4])], Some(Defect::BadPhdrs)),
    (&[(56, &[3])], &[(44, &[3])], None),
    (
        &[(56, &[255, 255])],
        &[(44, &[255, 255])],
        Some(Defect::BadPhdrs),
    ),
    (&[(54, &[55])], &[(42, &[31])], Some(Defect::BadPhdrs)),
    (
        &[(54, &[0]), (56, &[0])],
        &[(42, &[0]), (44, &[0])],
        Some(Defect::NoDynamic),
    ),
    (&[(120, &[3])], &[(84, &[3])], Some(Defect::NoDynamic)),
];

const SECTIONS: &[Row] = &[
    (&[(152, &[76])], &[(100, &[44])], Some(Defect::DynOutside)),
    (&[(192, &[6])], &[(124, &[6])], Some(Defect::NoStrtab)),
    (&[(208, &[6])], &[(132, &[6])], Some(Defect::NoStrtab)),
    (&[(216, &[12])], &[(136, &[12])], Some(Defect::OutsideLoad)),
    (&[(64, &[3])], &[(52, &[3])], Some(Defect::OutsideLoad)),
    (
        &[(184, &[11])],
        &[(120, &[11])],
        Some(Defect::BadString { tag: 14 }),
    ),
    (
        &[(250, b"x")],
        &[(158, b"x")],
        Some(Defect::BadString { tag: 14 }),
    ),
    (
        &[(176, &[1]), (184, &[11])],
        &[(116, &[1]), (120, &[11])],
        Some(Defect::BadString { tag: 1 }),
    ),
    (
        &[(176, &[15]), (184, &[11])],
        &[(116, &[15]), (120, &[11])],
        Some(Defect::BadString { tag: 15 }),
    ),
    (
        &[(176, &[29]), (184, &[11])],
        &[(116, &[29]), (120, &[11])],
        Some(Defect::BadString { tag: 29 }),
    ),
    (&[(244, b"/")], &[(152, b"/")], Some(Defect::BadSoname)),
    (
        &[(4, &[3]), (5, &[2])],
        &[(4, &[3]), (5, &[2])],
        Some(Defect::BadClass { value: 3 }),
    ),
];

const NEIGHBOURS: &[Row] = &[
    (
        &[(16, &[1, 0, 0, 0])],
        &[(16, &[1, 0, 0, 0])],
        Some(Defect::BadMachine { number: 0 }),
    ),
    (
        &[(16, &[1]), (56, &[4])],
        &[(16, &[1]), (44, &[4])],
        Some(Defect::NotShared { etype: 1 }),
    ),
    (
        &[(120, &[3]), (56, &[4])],
        &[(84, &[3]), (44, &[4])],
        Some(Defect::BadPhdrs),
    ),
    (
        &[(120, &[3]), (16, &[2])],
        &[(84, &[3]), (16, &[2])],
        Some(Defect::NoDynamic),
    ),
    (
        &[(152, &[76]), (192, &[6])],
        &[(100, &[44]), (124, &[6])],
        Some(Defect::DynOutside),
    ),
    (
        &[(208, &[6]), (200, &[0, 0])],
        &[(132, &[6]), (128, &[0, 0])],
        Some(Defect::NoStrtab),
    ),
    (
        &[(216, &[12]), (184, &[99])],
        &[(136, &[12]), (120, &[99])],
        Some(Defect::OutsideLoad),
    ),
    (
        &[(244, b"/"), (250, b"x")],
        &[(152, b"/"), (158, b"x")],
        Some(Defect::BadString { tag: 14 }),
    ),
    (
        &[(244, b"/"), (16, &[2])],
        &[(152, b"/"), (16, &[2])],
        Some(Defect::BadSoname),
    ),
    (
        &[(32, &[255; 8])],
        &[(28, &[255; 4])],
        Some(Defect::BadPhdrs),
    ),
];

const SIZES: &[Row] = &[
    (
        &[(32, &[140, 255, 255, 255, 255, 255, 255, 255])],
        &[(28, &[192, 255, 255, 255])],
        Some(Defect::BadPhdrs),
    ),
    (
        &[(128, &[255; 8])],
        &[(88, &[255; 4])],
        Some(Defect::DynOutside),
    ),
    (
        &[(152, &[255; 8])],
        &[(100, &[255; 4])],
        Some(Defect::DynOutside),
    ),
    (
        &[(152, &[80, 255, 255, 255, 255, 255, 255, 255])],
        &[(100, &[140, 255, 255, 255])],
        Some(Defect::DynOutside),
    ),
    (&[(136, &[255; 8])], &[(92, &[255; 4])], None),
    (
        &[(72, &[255; 8])],
        &[(56, &[255; 4])],
        Some(Defect::OutsideLoad),
    ),
    (
        &[(80, &[255; 8])],
        &[(60, &[255; 4])],
        Some(Defect::OutsideLoad),
    ),
    (&[(96, &[255; 8])], &[(68, &[255; 4])], None),
    (
        &[(200, &[255; 8])],
        &[(128, &[255; 4])],
        Some(Defect::OutsideLoad),
    ),
    (
        &[(216, &[255; 8])],
        &[(136, &[255; 4])],
        Some(Defect::OutsideLoad),
    ),
    (
        &[(96, &[255; 8]), (216, &[255; 8])],
        &[(68, &[255; 4]), (136, &[255; 4])],
        Some(Defect::OutsideLoad),
    ),
    (
        &[(184, &[255; 8])],
        &[(120, &[255; 4])],
        Some(Defect::BadString { tag: 14 }),
    ),
];

// A shared object whose DT_SONAME is `libz.so.1`: 251 bytes as ELF64, 159 as ELF32.
pub fn libz(alloc: Global, abi: Abi) -> Result<Vec<u8>, SampleFault> {
    library_file(alloc, abi, b"libz.so.1")
}

pub fn changed(alloc: Global, base: &[u8], changes: &[Change]) -> Result<Vec<u8>, Fail> {
    let mut bytes = Vec::from_slice(alloc, base)?;
    for (at, new) in changes {
        for (i, byte) in new.iter().enumerate() {
            let place = at.saturating_add(i);
            if place < bytes.len() {
                bytes[place] = *byte;
            }
        }
    }
    Ok(bytes)
}

// The analysis of a file with these bytes, through a store.
pub fn analysis(alloc: Global, bytes: Vec<u8>) -> Result<Option<Analysis>, Fail> {
    let mut held = Vec::new(alloc);
    held.push((Text::copy_of(alloc, b"key")?, Text::from_vec(bytes)))?;
    let mut store = SureStore::new(held);
    Ok(analyse(alloc, &mut store, b"key").ok())
}

// Whether it is the library `libz.so.1` of this ABI, or has this defect.
pub fn is(analysis: &Option<Analysis>, abi: Abi, want: Option<Defect>) -> bool {
    match (analysis, want) {
        (
            Some(
                Analysis::Lib {
                    abi: found,
                    soname: Some(name),
                },
            ),
            None,
        ) => *found == abi && name.as_bytes() == b"libz.so.1".as_slice(),
        (Some(Analysis::Not(defect)), Some(want)) => *defect == want,
        _ => false,
    }
}

/// Whether it is a library for x86-64 without a soname.
pub fn is_nameless(analysis: &Option<Analysis>) -> bool {
    matches!(
        analysis,
        Some(Analysis::Lib {
            abi: Abi::X86_64,
            soname: None
        })
    )
}

/// Whether a file of these bytes is the library `libz.so.1` of this ABI, or has this defect.
pub fn gives(alloc: Global, bytes: Vec<u8>, abi: Abi, want: Option<Defect>) -> Result<bool, Fail> {
    Ok(is(&analysis(alloc, bytes)?, abi, want))
}

// Whether a library with these changes has the expected ABI or defect.
fn is_changed(
    alloc: Global,
    abi: Abi,
    changes: &[Change],
    want: Option<Defect>,
) -> Result<bool, Fail> {
    gives(
        alloc,
        changed(alloc, &libz(alloc, abi)?, changes)?,
        abi,
        want,
    )
}

// Whether both files are what the row says.
fn check(rt: &impl Abort, alloc: Global, row: &Row) -> Result<(), Fail> {
    let (wide, narrow, want) = row;
    assert!(rt;
        is_changed(alloc, Abi::X86_64, *wide, *want)?,
        "class 2: {wide:?} {want:?}"
    );
    assert!(rt;
        is_changed(alloc, Abi::I386, *narrow, *want)?,
        "class 1: {narrow:?} {want:?}"
    );
    Ok(())
}

#[test]
fn the_identification_has_its_defects(rt: HostRuntime) -> Result<(), Fail> {
    for row in IDENTIFICATION {
        check(&rt, rt.alloc(), row)?;
    }
    Ok(())
}

#[test]
fn machine_and_type_have_their_defects(rt: HostRuntime) -> Result<(), Fail> {
    for row in TYPES {
        check(&rt, rt.alloc(), row)?;
    }
    Ok(())
}

#[test]
fn the_program_headers_have_their_defects(rt: HostRuntime) -> Result<(), Fail> {
    for row in HEADERS {
        check(&rt, rt.alloc(), row)?;
    }
    Ok(())
}

#[test]
fn the_section_has_its_defects(rt: HostRuntime) -> Result<(), Fail> {
    for row in SECTIONS {
        check(&rt, rt.alloc(), row)?;
    }
    Ok(())
}

#[test]
fn of_two_defects_the_first_counts(rt: HostRuntime) -> Result<(), Fail> {
    for row in NEIGHBOURS {
        check(&rt, rt.alloc(), row)?;
    }
    Ok(())
}

#[test]
fn sizes_near_the_ends_of_their_words(rt: HostRuntime) -> Result<(), Fail> {
    for row in SIZES {
        check(&rt, rt.alloc(), row)?;
    }
    Ok(())
}
