// Single lines: the result of each, or its first fault.
use lib_types::Text;
use mtree_manifest::{EntryLineFault, LineKind, read_entry, write};
use std::alloc::Global;
use std::process::Abort;
use std::test::Fail;
use tree_face::{Node, Tree};

// A line, and the canonical line of its result.
const GIVEN: &[(&[u8], &[u8])] = &[
    (b"./usr type=file", b"./usr type=file\n"),
    (b"./usr/", b"./usr type=file\n"),
    (b"\t ./a//./b  type=dir size=7 ", b"./a/b type=dir\n"),
    (b"./a type=link link=../x", b"./a type=link link=../x\n"),
    (b"./\\043x type=dir", b"./\\043x type=dir\n"),
    (
        b"./usr/lib/liba.so.1 type=file inode=5 ctime=1 size=251 contents=one",
        b"./usr/lib/liba.so.1 type=file dev=0 inode=5 ctime=1 size=251 contents=one\n",
    ),
    (
        b"./a inode=5 ctime=1 size=00000000000000000007 dev=2",
        b"./a type=file dev=2 inode=5 ctime=1 size=7\n",
    ),
    (b"./a inode=5 ctime=1", b"./a type=file\n"),
    (b"./a type=dir type=file", b"./a type=file\n"),
];

const WITHOUT_NODE: &[&[u8]] = &[
    b"./a type=block",
    b"./a type=char",
    b"./a type=fifo link=x",
    b"./a/b type=socket",
];

const BAD: &[(&[u8], LineKind)] = &[
    (b"", LineKind::BadLine),
    (b" \t", LineKind::BadLine),
    (b"# ./a", LineKind::BadLine),
    (b"#x/y type=file", LineKind::BadLine),
    (b"/set type=dir", LineKind::BadLine),
    (b"/set type=pear", LineKind::BadLine),
    (b"/set link=\\q", LineKind::BadEscape),
    (b"/unset all", LineKind::BadLine),
    (b"/unset \\q", LineKind::BadLine),
    (b"..", LineKind::BadLine),
    (b".. link=\\q", LineKind::BadLine),
    (b"a type=dir", LineKind::BadLine),
    (b"a\\q", LineKind::BadEscape),
    (b"a link=\\q", LineKind::BadEscape),
    (b"/a", LineKind::BadLine),
    (b"/a\\q", LineKind::BadEscape),
    (b". type=dir", LineKind::BadLine),
    (b"./ type=dir", LineKind::BadLine),
    (b"./. type=dir", LineKind::BadLine),
    (b"./ type=pear", LineKind::BadLine),
    (b"./ type=dir link=\\q", LineKind::BadEscape),
    (b"./ type=dir size=x", LineKind::BadLine),
    (b"./../a", LineKind::BadLine),
    (b"./a link", LineKind::BadLine),
    (b"./a\\", LineKind::BadLine),
    (b"./a\\\\", LineKind::BadLine),
    (b"./a\\q\\", LineKind::BadLine),
    (b"./a size=18446744073709551616", LineKind::BadNumber),
    (b"./x type=pear", LineKind::BadType),
    (b"./x type=dir\r", LineKind::BadType),
    (b"./x type=block contents=\\q", LineKind::BadEscape),
    (b"./x type=link", LineKind::NoTarget),
    (b"./x type=link link=y link=", LineKind::NoTarget),
];

// The canonical manifest of a line's node.
fn canonical(alloc: Global, line: &[u8]) -> Result<Option<Vec<u8>>, Fail> {
    let Ok(entry) = read_entry(alloc, line) else {
        return Ok(None);
    };
    let Some((path, node)) = entry else {
        return Ok(None);
    };
    let text = text_with(alloc, &path, node)?;
    Ok(Some(text))
}

fn text_with(alloc: Global, path: &Text, node: Node) -> Result<Vec<u8>, Fail> {
    let mut tree = Tree::new(alloc);
    if !tree_face::is_path(path.as_bytes()) || !tree_face::is_node(&node) {
        return Ok(Vec::new(alloc));
    }
    tree.put(path.as_bytes(), node)?;
    let text = write(alloc, &tree)?;
    Ok(text)
}

fn gives(alloc: Global, line: &[u8], want: &[u8]) -> Result<bool, Fail> {
    let Some(text) = canonical(alloc, line)? else {
        return Ok(false);
    };
    Ok(text.starts_with(b"#mtree\n") && &text[7..] == want)
}

fn gives_no_node(alloc: Global, line: &[u8]) -> bool {
    match read_entry(alloc, line) {
        Ok(entry) => entry.is_none(),
        Err(_) => false,
    }
}

fn fault_of(alloc: Global, line: &[u8]) -> Option<EntryLineFault> {
    read_entry(alloc, line).err()
}

#[test]
fn lines_give_nodes(rt: HostRuntime) -> Result<(), Fail> {
    let alloc = rt.alloc();
    for (line, want) in GIVEN {
        let line: &[u8] = line;
        assert!(rt; gives(alloc, line, want)?, "{line:?}");
    }
    Ok(())
}

#[test]
fn types_without_a_node_give_none(rt: HostRuntime) {
    let alloc = rt.alloc();
    for line in WITHOUT_NODE {
        let line: &[u8] = line;
        assert!(rt; gives_no_node(alloc, line), "{line:?}");
    }
}

#[test]
fn bad_lines_are_refused(rt: HostRuntime) {
    let alloc = rt.alloc();
    for (line, kind) in BAD {
        let line: &[u8] = line;
        let is_so = fault_of(alloc, line) == Some(EntryLineFault::Bad(*kind));
        assert!(rt; is_so, "{line:?}");
    }
}
