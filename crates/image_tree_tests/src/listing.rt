// The names directly below a directory, with their nodes.
use super::tree::{Placed, is_kind, shown, tree_of};
use image_tree::{Kind, Tree};
use std::alloc::Global;
use std::test::Fail;

// Whether this is the listing as one text.
fn is_listed(alloc: Global, tree: &Tree, path: &str, want: &str) -> Result<bool, Fail> {
    let mut text = Vec::new(alloc);
    for (name, node) in tree.listing(path.as_bytes()) {
        text.extend_from_slice(name)?;
        text.push(b'=')?;
        text.extend_from_slice(shown(node))?;
        text.push(b' ')?;
    }
    Ok(text.as_slice() == want.as_bytes())
}

const NODES: &[Placed<'_>] = &[
    ("/a.b", Kind::File, "two"),
    ("/a/b", Kind::File, "one"),
    ("/a-c", Kind::Dir, ""),
    ("/a", Kind::Dir, ""),
    ("/d/e/f", Kind::Link, "/a/b"),
    ("/d-x", Kind::Link, "a"),
    ("/d/e!/g/h", Kind::File, "three"),
    ("/d/e!/g", Kind::Dir, ""),
];

// Paths of that tree, and their listings.
const LISTINGS: &[(&str, &str)] = &[
    ("/", "a=dir a-c=dir a.b=two d=none d-x=a "),
    ("/a", "b=one "),
    ("/d", "e=none e!=none "),
    ("/d/e", "f=/a/b "),
    ("/d/e!", "g=dir "),
    ("/d/e!/g", "h=three "),
    ("/a-c", ""),
    ("/a.b", ""),
    ("/d-x", ""),
    ("/b", ""),
    ("/d/", ""),
    ("//d", ""),
    ("", ""),
];

#[test]
fn each_name_has_the_node_of_its_own_path(rt: HostRuntime) -> Result<(), Fail> {
    let tree = tree_of(&rt, rt.alloc(), NODES)?;
    for (path, want) in LISTINGS {
        assert!(rt; is_listed(rt.alloc(), &tree, path, want)?, "at {path}");
    }
    Ok(())
}

// Trees, and their listings of `/` and `/usr`.
const SMALL: &[(&[Placed<'_>], &str, &str)] = &[
    (&[], "", ""),
    (&[("/usr", Kind::Dir, "")], "usr=dir ", ""),
    (&[("/usr", Kind::Link, "u")], "usr=u ", ""),
    (&[("/usr/lib", Kind::File, "k")], "usr=none ", "lib=k "),
    (
        &[("/usr/lib/x", Kind::Dir, ""), ("/usr", Kind::Dir, "")],
        "usr=dir ",
        "lib=none ",
    ),
    (
        &[("/usr.", Kind::Dir, ""), ("/usr/l", Kind::Link, "t")],
        "usr=none usr.=dir ",
        "l=t ",
    ),
];

#[test]
fn small_trees_are_listed(rt: HostRuntime) -> Result<(), Fail> {
    for (nodes, root, usr) in SMALL {
        let tree = tree_of(&rt, rt.alloc(), *nodes)?;
        assert!(rt; is_listed(rt.alloc(), &tree, "/", root)?, "{root}");
        assert!(rt; is_listed(rt.alloc(), &tree, "/usr", usr)?, "{root}");
    }
    Ok(())
}

#[test]
fn a_removal_leaves_the_name_of_what_has_more_below(rt: HostRuntime) -> Result<(), Fail> {
    let nodes = &[
        ("/a", Kind::Dir, ""),
        ("/a/x", Kind::File, "k"),
        ("/a/x-y", Kind::Dir, ""),
    ];
    let mut tree = tree_of(&rt, rt.alloc(), nodes)?;
    assert!(rt; tree.remove(b"/a"));
    assert!(rt; is_listed(rt.alloc(), &tree, "/", "a=none ")?);
    assert!(rt; tree.remove(b"/a/x"));
    assert!(rt; is_listed(rt.alloc(), &tree, "/a", "x-y=dir ")?);
    assert!(rt; tree.remove(b"/a/x-y"));
    assert!(rt; is_listed(rt.alloc(), &tree, "/", "")?);
    Ok(())
}

const KINDS: &[(&str, Kind)] = &[
    ("/a", Kind::Dir),
    ("/", Kind::Dir),
    ("", Kind::Absent),
    ("/a/", Kind::Absent),
    ("a", Kind::Absent),
    ("/a/.", Kind::Absent),
];

#[test]
fn a_text_that_is_no_path_has_no_kind(rt: HostRuntime) -> Result<(), Fail> {
    let tree = tree_of(&rt, rt.alloc(), &[("/a/b", Kind::Dir, "")])?;
    for (text, kind) in KINDS {
        assert!(rt; is_kind(&tree, text, *kind), "at {text}");
    }
    Ok(())
}
