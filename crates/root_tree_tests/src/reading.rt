// Trees that are read, and readings that fail.
use super::image::{Placed, folder_of, text_of};
use root_folder::{FolderCall, FolderCounts, MemFolder};
use root_tree::{TreeRead, read_tree};
use std::alloc::Global;
use std::test::Fail;
use tree_face::Kind;

const USUAL: &[Placed<'_>] = &[
    ("/bin", Kind::Link, "usr/bin"),
    ("/etc", Kind::Dir, ""),
    ("/usr", Kind::Dir, ""),
    ("/usr/lib", Kind::Dir, ""),
    ("/usr/lib/a.b", Kind::File, "/usr/lib/a.b"),
    ("/usr/lib/a-c", Kind::Link, "../../.."),
    ("/usr/lib/a", Kind::Dir, ""),
    ("/usr/lib/a/deep", Kind::File, "/usr/lib/a/deep"),
    ("/usr-x", Kind::Dir, ""),
    ("/usr-x/f", Kind::File, "k"),
];

// The nodes of a directory, the tree that is read, the number of listed directories, and the number of paths that are looked at.
const TREES: &[(&[Placed<'_>], &str, u64, u64)] = &[
    (&[], "", 1, 0),
    (&[("/a", Kind::File, "k")], "/a = k|", 1, 1),
    (&[("/a", Kind::Dir, "")], "/a/|", 2, 1),
    (&[("/a", Kind::Link, "/")], "/a -> /|", 1, 1),
    (
        &[
            ("/a", Kind::Dir, ""),
            ("/a/a", Kind::Dir, ""),
            ("/a/a/a", Kind::Dir, ""),
            ("/a/a/a/a", Kind::File, "k"),
        ],
        "/a/|/a/a/|/a/a/a/|/a/a/a/a = k|",
        4,
        4,
    ),
    (
        USUAL,
        "/bin -> usr/bin|/etc/|/usr/|/usr/lib/|/usr/lib/a/|/usr/lib/a/deep = /usr/lib/a/deep|/usr/lib/a-c -> ../../..|/usr/lib/a.b = /usr/lib/a.b|/usr-x/|/usr-x/f = k|",
        6,
        10,
    ),
];

#[test]
fn trees_are_read(rt: HostRuntime) -> Result<(), Fail> {
    let alloc = rt.alloc();
    for (nodes, want, lists, looks) in TREES {
        let mut folder = folder_of(&rt, alloc, *nodes, &[])?;
        let Ok(tree) = read_tree(alloc, &mut folder) else {
            return Err(Fail::from("not read"));
        };
        let text = text_of(alloc, &tree)?;
        assert!(rt; text.as_slice() == want.as_bytes(), "{want}");
        let counts = FolderCounts {
            lists: *lists,
            looks: *looks,
            links: 0,
            settles: 0,
        };
        assert_eq!(rt; folder.counts(), counts);
        assert_eq!(rt; folder.faults(), 0);
    }
    Ok(())
}

// Whether exactly one call was made on this path.
fn is_once(folder: &MemFolder, is_names: bool, path: &str) -> bool {
    let mut count = 0;
    for call in folder.calls() {
        let found = match call {
            FolderCall::Names { dir } => is_names && dir.as_bytes() == path.as_bytes(),
            FolderCall::Look { path: at } => !is_names && at.as_bytes() == path.as_bytes(),
            _ => false,
        };
        if found && count < 2 {
            count += 1;
        }
    }
    count == 1
}

#[test]
fn each_call_is_made_once(rt: HostRuntime) -> Result<(), Fail> {
    let alloc = rt.alloc();
    let mut folder = folder_of(&rt, alloc, USUAL, &[])?;
    assert!(rt; read_tree(alloc, &mut folder).is_ok());
    for (path, kind, _) in USUAL {
        assert!(rt; is_once(&folder, false, path), "looked at {path}");
        assert!(rt;
            is_once(&folder, true, path) == (*kind == Kind::Dir),
            "listed {path}"
        );
    }
    assert!(rt; is_once(&folder, true, "/"));
    Ok(())
}

// The path where a reading failed.
fn failed_at(alloc: Global, folder: &mut MemFolder) -> Result<Vec<u8>, Fail> {
    match read_tree(alloc, folder) {
        Ok(_) => Ok(Vec::from_slice(alloc, b"read")?),
        Err(TreeRead::Failed { at }) => Ok(Vec::from_slice(alloc, at.as_bytes())?),
        Err(TreeRead::TooLarge) => Ok(Vec::from_slice(alloc, b"too large")?),
        Err(TreeRead::NoMemory) => Ok(Vec::from_slice(alloc, b"no memory")?),
    }
}

const TWO: &[Placed<'_>] = &[
    ("/a", Kind::Dir, ""),
    ("/a/b", Kind::File, "k"),
    ("/c", Kind::File, "k"),
];

// The number of the call that fails, counted from 0, and its path.
const FAILING: &[(u64, &str)] = &[
    (0, "/"),
    (1, "/a"),
    (2, "/c"),
    (3, "/a"),
    (4, "/a/b"),
    (5, "read"),
];

#[test]
fn a_call_that_fails_is_named(rt: HostRuntime) -> Result<(), Fail> {
    let alloc = rt.alloc();
    for (call, want) in FAILING {
        let mut folder = folder_of(&rt, alloc, TWO, &[*call])?;
        let at = failed_at(alloc, &mut folder)?;
        assert!(rt; at.as_slice() == want.as_bytes(), "call {call}");
        let faults = if *call < 5 { 1 } else { 0 };
        assert_eq!(rt; folder.faults(), faults);
        assert_eq!(rt; folder.read_faults(), faults);
        assert_eq!(rt; folder.counts().links, 0);
    }
    Ok(())
}
