// Links that are made, and crashes between their calls.
use lib_types::Text;
use root_folder::{FolderCall, MemFolder};
use root_links::{LinkFault, NewLink, make_links};
use std::alloc::Global;
use std::process::Abort;
use std::test::Fail;
use tree_face::{Node, Tag, Tree, is_node, is_path};

// The directories of the image, and a link in it.
const DIRS: &[&str] = &["/opt", "/usr", "/usr/lib", "/usr/lib/a"];

const OLD: (&str, &str) = ("/usr/lib/x", "x.1");

// Paths of links to be made, with their targets.
const LINKS: &[(&str, &str)] = &[
    ("/usr/lib/x", "x.2"),
    ("/usr/lib/y", "y.1"),
    ("/opt/z", "z.1"),
    ("/usr/lib/a/v", "v.1"),
];

// The calls that make them.
const CALLS: &str =
    "link /usr/lib/x x.2|link /usr/lib/y y.1|link /opt/z z.1|link /usr/lib/a/v v.1|settle /usr/lib|settle /opt|settle /usr/lib/a|";

fn link_node(alloc: Global, target: &str) -> Result<Node, Fail> {
    let target = Text::copy_of(alloc, target.as_bytes())?;
    Ok(Node::Link { target })
}

fn put(rt: &impl Abort, tree: &mut Tree, path: &str, node: Node) -> Result<(), Fail> {
    assert!(rt; is_path(path.as_bytes()));
    assert!(rt; is_node(&node));
    tree.put(path.as_bytes(), node)?;
    Ok(())
}

// The image, in which the calls with these numbers fail.
fn folder_of(rt: &impl Abort, alloc: Global, fail: &[u64]) -> Result<MemFolder, Fail> {
    let mut tree = Tree::new(alloc);
    for dir in DIRS {
        put(rt, &mut tree, dir, Node::Dir)?;
    }
    put(rt, &mut tree, OLD.0, link_node(alloc, OLD.1)?)?;
    match MemFolder::new(alloc, tree, Vec::from_slice(alloc, fail)?) {
        Some(folder) => Ok(folder),
        None => Err(Fail::from("not whole")),
    }
}

// Makes the links.
fn make(
    rt: &impl Abort,
    alloc: Global,
    folder: &mut MemFolder,
    links: &[(&str, &str)],
) -> Result<Result<(), LinkFault>, Fail> {
    let mut list: Vec<NewLink<'_>> = Vec::new(alloc);
    for (path, target) in links {
        list.push(NewLink {
            path: path.as_bytes(),
            target: target.as_bytes(),
        })?;
    }
    assert!(rt; crate::are_valid(list.as_slice()));
    Ok(make_links(folder, Tag(7), list.as_slice()))
}

// Adds a word and a text.
fn push_pair(text: &mut Vec<u8>, word: &str, more: &Text) -> Result<(), Fail> {
    text.extend_from_slice(word.as_bytes())?;
    text.extend_from_slice(more.as_bytes())?;
    Ok(())
}

// The calls, each followed by a bar. That of a link has the tag 7.
fn calls_of(alloc: Global, folder: &MemFolder) -> Result<Vec<u8>, Fail> {
    let mut text = Vec::new(alloc);
    for call in folder.calls() {
        match call {
            FolderCall::Link { tag, path, target } => {
                let word = if *tag == Tag(7) { "link " } else { "other " };
                push_pair(&mut text, word, path)?;
                push_pair(&mut text, " ", target)?;
            }
            FolderCall::Settle { dir } => push_pair(&mut text, "settle ", dir)?,
            _ => text.extend_from_slice(b"reads")?,
        }
        text.push(b'|')?;
    }
    Ok(text)
}

#[test]
fn links_are_made_and_then_settled(rt: HostRuntime) -> Result<(), Fail> {
    let alloc = rt.alloc();
    let mut folder = folder_of(&rt, alloc, &[])?;
    assert!(rt; make(&rt, alloc, &mut folder, LINKS)?.is_ok());
    let calls = calls_of(alloc, &folder)?;
    assert!(rt; calls.as_slice() == CALLS.as_bytes());
    assert_eq!(rt; folder.faults(), 0);
    Ok(())
}

#[test]
fn no_links_take_no_calls(rt: HostRuntime) -> Result<(), Fail> {
    let alloc = rt.alloc();
    let mut folder = folder_of(&rt, alloc, &[])?;
    assert!(rt; make(&rt, alloc, &mut folder, &[])?.is_ok());
    assert!(rt; calls_of(alloc, &folder)?.is_empty());
    Ok(())
}

// Whether a crash may leave this link at a path, or nothing if it is empty.
fn may_leave(alloc: Global, folder: &MemFolder, path: &str, target: &str) -> Result<bool, Fail> {
    if target.is_empty() {
        return Ok(folder.may_leave(path.as_bytes(), None));
    }
    let node = link_node(alloc, target)?;
    Ok(folder.may_leave(path.as_bytes(), Some(&node)))
}

// The number of calls before all calls fail; then the fault, and for each link whether a crash may leave the old one, and whether the new
// one.
const STOPS: &[(u64, Result<(), LinkFault>, &str, &str)] = &[
    (0, Err(LinkFault::Link { number: 0 }), "oooo", "...."),
    (1, Err(LinkFault::Link { number: 1 }), "oooo", "n..."),
    (2, Err(LinkFault::Link { number: 2 }), "oooo", "nn.."),
    (3, Err(LinkFault::Link { number: 3 }), "oooo", "nnn."),
    (4, Err(LinkFault::Settle { number: 1 }), "oooo", "nnnn"),
    (5, Err(LinkFault::Settle { number: 2 }), "..oo", "nnnn"),
    (6, Err(LinkFault::Settle { number: 3 }), "...o", "nnnn"),
    (7, Ok(()), "....", "nnnn"),
];

#[test]
fn a_crash_leaves_each_link_old_or_new(rt: HostRuntime) -> Result<(), Fail> {
    let alloc = rt.alloc();
    for (calls, want, old, new) in STOPS {
        let mut folder = folder_of(&rt, alloc, &[])?;
        folder.stop_after(*calls);
        assert!(rt;
            make(&rt, alloc, &mut folder, LINKS)? == *want,
            "after {calls}"
        );
        for ((path, target), (was, is)) in LINKS.iter().zip(old.bytes().zip(new.bytes())) {
            let before = if *path == OLD.0 { OLD.1 } else { "" };
            assert!(rt;
                may_leave(alloc, &folder, path, before)? == (was == b'o'),
                "{path} after {calls}"
            );
            assert!(rt;
                may_leave(alloc, &folder, path, target)? == (is == b'n'),
                "{path} after {calls}"
            );
        }
    }
    Ok(())
}

#[test]
fn links_where_they_cannot_be_stop(rt: HostRuntime) -> Result<(), Fail> {
    let alloc = rt.alloc();
    let links = &[("/opt/z", "z.1"), ("/usr/lib", "w"), ("/opt/y", "y.1")];
    let mut folder = folder_of(&rt, alloc, &[])?;
    let made = make(&rt, alloc, &mut folder, links)?;
    assert!(rt; made == Err(LinkFault::Link { number: 1 }));
    assert!(rt; may_leave(alloc, &folder, "/opt/z", "z.1")?);
    assert!(rt; !may_leave(alloc, &folder, "/opt/y", "y.1")?);
    assert_eq!(rt; folder.faults(), 1);
    Ok(())
}
