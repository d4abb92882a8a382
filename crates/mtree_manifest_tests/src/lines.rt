// Each text of the tables gives the result beside it.
use crate::table::{BAD_LINES, CLASHES, TREES};
use mtree_manifest::{ManifestFault, read, write};
use std::alloc::Global;
use std::process::Abort;
use std::test::Fail;

// The canonical text of a manifest's tree.
fn canonical(alloc: Global, text: &[u8]) -> Result<Vec<u8>, ManifestFault> {
    let tree = read(alloc, text)?;
    Ok(write(alloc, &tree)?)
}

fn assert_lines(rt: &impl Abort, alloc: Global, text: &[u8], lines: &[u8]) -> Result<(), Fail> {
    let found = canonical(alloc, text)?;
    assert!(rt; found.as_slice().starts_with(b"#mtree\n"));
    assert_eq!(rt; &found.as_slice()[7..], lines, "{text:?}");
    let again = canonical(alloc, found.as_slice())?;
    assert_eq!(rt; again.as_slice(), found.as_slice(), "{text:?}");
    Ok(())
}

fn assert_fault(rt: &impl Abort, alloc: Global, text: &[u8], fault: ManifestFault) {
    assert_eq!(rt; canonical(alloc, text).err(), Some(fault), "{text:?}");
}

#[test]
fn texts_give_trees(rt: HostRuntime) -> Result<(), Fail> {
    let alloc = rt.alloc();
    for (text, lines) in TREES {
        assert_lines(&rt, alloc, text, lines)?;
    }
    Ok(())
}

#[test]
fn bad_lines_are_named(rt: HostRuntime) {
    let alloc = rt.alloc();
    for &(text, line, kind) in BAD_LINES {
        assert_fault(&rt, alloc, text, ManifestFault::Bad { line, kind });
    }
    for &(text, line) in CLASHES {
        assert_fault(&rt, alloc, text, ManifestFault::Clash { line });
    }
}
