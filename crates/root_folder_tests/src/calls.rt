// Each call, and each rejected call.
use super::image::{Placed, folder_of, link, look_of, names_of, tree_of};
use lib_types::Text;
use root_folder::{Folder, FolderCall, FolderCounts, MemFolder};
use std::alloc::Global;
use std::test::Fail;
use tree_face::{Kind, Tag};

// Directories, and their names in the order of their bytes.
const LISTINGS: &[(&str, &str)] = &[
    ("/", "bin|etc|usr|"),
    ("/usr/lib", "a|a-c|a.b|"),
    ("/usr/lib/a", "deep|"),
    ("/etc", ""),
    ("/bin", "failed"),
    ("/usr/lib/a.b", "failed"),
    ("/usr/share", "failed"),
    ("/usr/", "failed"),
    ("", "failed"),
];

#[test]
fn directories_are_listed(rt: HostRuntime) -> Result<(), Fail> {
    let alloc = rt.alloc();
    let mut folder = folder_of(&rt, alloc, &[])?;
    for (dir, want) in LISTINGS {
        let names = names_of(alloc, &mut folder, dir)?;
        assert!(rt; names.as_slice() == want.as_bytes(), "at {dir}");
    }
    assert_eq!(rt; folder.counts().lists, 9);
    assert_eq!(rt; folder.faults(), 5);
    assert_eq!(rt; folder.read_faults(), 5);
    Ok(())
}

// Paths, and what is there.
const LOOKS: &[(&str, &str)] = &[
    ("/usr/lib", "dir"),
    ("/usr/lib/a.b", "/usr/lib/a.b"),
    ("/usr/lib/a-c", "a.b"),
    ("/usr/lib/a/deep", "/usr/lib/a/deep"),
    ("/usr/lib/b", "none"),
    ("/usr/lib/a.b/c", "none"),
    ("/bin/sh", "none"),
    ("/", "none"),
    ("usr", "none"),
];

#[test]
fn paths_are_looked_at(rt: HostRuntime) -> Result<(), Fail> {
    let alloc = rt.alloc();
    let mut folder = folder_of(&rt, alloc, &[])?;
    for (path, want) in LOOKS {
        let found = look_of(alloc, &mut folder, path)?;
        assert!(rt; found.as_slice() == want.as_bytes(), "at {path}");
    }
    assert_eq!(rt; folder.counts().looks, 9);
    assert_eq!(rt; folder.faults(), 0);
    Ok(())
}

// Paths of links to be made with the target `new`, whether they are made, and what is there then.
const LINKS: &[(&str, bool, &str)] = &[
    ("/usr/lib/b", true, "new"),
    ("/usr/lib/a-c", true, "new"),
    ("/usr/lib/b", true, "new"),
    ("/x", true, "new"),
    ("/usr/lib/a.b", false, "/usr/lib/a.b"),
    ("/usr/lib/a", false, "dir"),
    ("/etc", false, "dir"),
    ("/usr/share/x", false, "none"),
    ("/bin/x", false, "none"),
    ("/usr/lib/a.b/x", false, "none"),
];

#[test]
fn links_are_made_where_they_may(rt: HostRuntime) -> Result<(), Fail> {
    let alloc = rt.alloc();
    let mut folder = folder_of(&rt, alloc, &[])?;
    for (path, made, want) in LINKS {
        assert!(rt;
            link(&rt, alloc, &mut folder, path, "new")? == *made,
            "at {path}"
        );
        let found = look_of(alloc, &mut folder, path)?;
        assert!(rt; found.as_slice() == want.as_bytes(), "at {path}");
    }
    let names = names_of(alloc, &mut folder, "/usr/lib")?;
    assert!(rt; names.as_slice() == b"a|a-c|a.b|b|".as_slice());
    assert_eq!(rt; folder.faults(), 6);
    assert_eq!(rt; folder.read_faults(), 0);
    Ok(())
}

#[test]
fn only_directories_are_settled(rt: HostRuntime) -> Result<(), Fail> {
    let mut folder = folder_of(&rt, rt.alloc(), &[])?;
    assert!(rt; folder.settle(b"/").is_ok());
    assert!(rt; folder.settle(b"/usr/lib").is_ok());
    assert!(rt; folder.settle(b"/bin").is_err());
    assert!(rt; folder.settle(b"/usr/share").is_err());
    assert_eq!(rt; folder.counts().settles, 4);
    assert_eq!(rt; folder.faults(), 2);
    Ok(())
}

// Adds a word and a text.
fn push_pair(text: &mut Vec<u8>, word: &str, more: &Text) -> Result<(), Fail> {
    text.extend_from_slice(word.as_bytes())?;
    text.extend_from_slice(more.as_bytes())?;
    Ok(())
}

// Adds a call. That of a link has the tag 7.
fn push_call(text: &mut Vec<u8>, call: &FolderCall) -> Result<(), Fail> {
    match call {
        FolderCall::Names { dir } => push_pair(text, "names ", dir),
        FolderCall::Look { path } => push_pair(text, "look ", path),
        FolderCall::Link { tag, path, target } => {
            let word = if *tag == Tag(7) { "link " } else { "other " };
            push_pair(text, word, path)?;
            push_pair(text, " to ", target)
        }
        FolderCall::Settle { dir } => push_pair(text, "settle ", dir),
    }
}

// The calls, each followed by a bar.
fn text_of(alloc: Global, calls: &[FolderCall]) -> Result<Vec<u8>, Fail> {
    let mut text = Vec::new(alloc);
    for call in calls {
        push_call(&mut text, call)?;
        text.push(b'|')?;
    }
    Ok(text)
}

const CALLS: &str = "names /usr|look /usr/lib|link /usr/x to lib|settle /usr|";

const ONE_OF_EACH: FolderCounts = FolderCounts {
    lists: 1,
    looks: 1,
    links: 1,
    settles: 1,
};

#[test]
fn calls_are_kept(rt: HostRuntime) -> Result<(), Fail> {
    let alloc = rt.alloc();
    let mut folder = folder_of(&rt, alloc, &[])?;
    let names = names_of(alloc, &mut folder, "/usr")?;
    assert!(rt; names.as_slice() == b"lib|".as_slice());
    let found = look_of(alloc, &mut folder, "/usr/lib")?;
    assert!(rt; found.as_slice() == b"dir".as_slice());
    assert!(rt; link(&rt, alloc, &mut folder, "/usr/x", "lib")?);
    assert!(rt; folder.settle(b"/usr").is_ok());
    let calls = text_of(alloc, folder.calls())?;
    assert!(rt; calls.as_slice() == CALLS.as_bytes());
    assert_eq!(rt; folder.counts(), ONE_OF_EACH);
    Ok(())
}

// Trees in which the parent of some node has no node.
const NOT_WHOLE: &[&[Placed<'_>]] = &[
    &[("/usr/lib", Kind::Dir, "")],
    &[("/usr", Kind::Dir, ""), ("/usr/lib/a", Kind::File, "k")],
];

#[test]
fn each_directory_has_a_node(rt: HostRuntime) -> Result<(), Fail> {
    let alloc = rt.alloc();
    for nodes in NOT_WHOLE {
        let tree = tree_of(&rt, alloc, *nodes)?;
        assert!(rt; MemFolder::new(alloc, tree, Vec::new(alloc)).is_none());
    }
    Ok(())
}

#[test]
fn calls_fail_on_demand(rt: HostRuntime) -> Result<(), Fail> {
    let alloc = rt.alloc();
    let mut folder = folder_of(&rt, alloc, &[0, 2, 4, 6])?;
    for want in ["failed", "lib|"] {
        let names = names_of(alloc, &mut folder, "/usr")?;
        assert!(rt; names.as_slice() == want.as_bytes());
    }
    for want in ["failed", "none"] {
        let found = look_of(alloc, &mut folder, "/x")?;
        assert!(rt; found.as_slice() == want.as_bytes());
    }
    for want in [false, true] {
        assert!(rt; link(&rt, alloc, &mut folder, "/x", "new")? == want);
    }
    assert!(rt; folder.settle(b"/").is_err());
    assert!(rt; folder.settle(b"/").is_ok());
    assert_eq!(rt; folder.faults(), 4);
    assert_eq!(rt; folder.read_faults(), 2);
    Ok(())
}
