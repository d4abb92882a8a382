// Texts at the limits and one beyond them.
use mtree_manifest::{LineKind, MANIFEST_MAX, ManifestFault, read};
use std::alloc::Global;
use std::process::Abort;
use std::test::Fail;
use tree_face::NODES_MAX;

// The number of nodes in a manifest's tree.
fn count(alloc: Global, text: &[u8]) -> Result<usize, ManifestFault> {
    let tree = read(alloc, text)?;
    Ok(tree.len())
}

fn push_repeated(text: &mut Vec<u8>, part: &[u8], times: usize) -> Result<(), Fail> {
    for _ in 0..times {
        text.extend_from_slice(part)?;
    }
    Ok(())
}

// A text with a part that is repeated between two others.
fn with_repeated(
    alloc: Global,
    front: &[u8],
    part: &[u8],
    times: usize,
    end: &[u8],
) -> Result<Vec<u8>, Fail> {
    let mut text = Vec::from_slice(alloc, front)?;
    push_repeated(&mut text, part, times)?;
    text.extend_from_slice(end)?;
    Ok(text)
}

const LENGTHS: &[(&[u8], &[u8], usize, &[u8])] = &[
    // a name has at most 255 bytes, decoded
    (b"./a/", b"n", 255, b"\n"),
    (b"n", b"\\156", 254, b" type=dir\n"),
    // a path has at most 4095 bytes
    (b"", b"/aaaaaaaaaaaa", 315, b"\n"),
    // a target and a key have at most 4095 bytes, decoded
    (b"./a type=link link=", b"\\170", 4095, b"\n"),
    (b"./a contents=", b"k", 4095, b"\n"),
];

#[test]
fn texts_at_the_limits_are_read(rt: HostRuntime) -> Result<(), Fail> {
    let alloc = rt.alloc();
    for &(front, part, times, end) in LENGTHS {
        let text = with_repeated(alloc, front, part, times, end)?;
        assert_eq!(rt; count(alloc, text.as_slice()), Ok(1), "{front:?}");
        let longer = with_repeated(alloc, front, part, times + 1, end)?;
        let fault = ManifestFault::Bad {
            line: 1,
            kind: LineKind::BadLine,
        };
        assert_eq!(rt; count(alloc, longer.as_slice()), Err(fault), "{front:?}");
    }
    Ok(())
}

#[test]
fn long_texts_are_read(rt: HostRuntime) -> Result<(), Fail> {
    let alloc = rt.alloc();
    // one line, of as many bytes as a text may have
    let mut text = with_repeated(alloc, b"./a ", b"mode=1 \\\n", (MANIFEST_MAX - 4) / 9, b"")?;
    assert_eq!(rt; count(alloc, text.as_slice()), Ok(1));
    let missing = MANIFEST_MAX.saturating_sub(text.len());
    push_repeated(&mut text, b"\n", missing)?;
    assert_eq!(rt; count(alloc, text.as_slice()), Ok(1));
    text.push(b'\n')?;
    let length = text.len() as u64;
    assert_eq!(rt;
        count(alloc, text.as_slice()),
        Err(ManifestFault::TooLong { length })
    );
    Ok(())
}

// A line of a file for each number below this, in ascending order of their paths.
fn push_files(text: &mut Vec<u8>, n: usize) -> Result<(), Fail> {
    for i in 0..n {
        let name = [
            b'a' + (i >> 16 & 15) as u8,
            b'a' + (i >> 12 & 15) as u8,
            b'a' + (i >> 8 & 15) as u8,
            b'a' + (i >> 4 & 15) as u8,
            b'a' + (i & 15) as u8,
            b'\n',
        ];
        text.extend_from_slice(&name)?;
    }
    Ok(())
}

#[test]
fn nodes_are_counted(rt: HostRuntime) -> Result<(), Fail> {
    let alloc = rt.alloc();
    let mut text = Vec::new(alloc);
    push_files(&mut text, NODES_MAX)?;
    text.extend_from_slice(b"aaaaa type=dir\n")?;
    assert_eq!(rt; count(alloc, text.as_slice()), Ok(NODES_MAX));
    text.extend_from_slice(b"b type=dir\n")?;
    let line = NODES_MAX as u64 + 2;
    assert_eq!(rt;
        count(alloc, text.as_slice()),
        Err(ManifestFault::TooMany { line })
    );
    Ok(())
}
