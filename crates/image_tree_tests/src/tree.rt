// The operations of a tree.
use image_tree::{Kind, Node, Tree, TreeFault, is_node, is_path};
use lib_types::Text;
use std::alloc::Global;
use std::process::Abort;
use std::test::Fail;

/// A path, a kind, and a key or a target.
pub(super) type Placed<'a> = (&'a str, Kind, &'a str);

fn node(alloc: Global, kind: Kind, text: &str) -> Result<Node, Fail> {
    match kind {
        Kind::File => Ok(Node::File {
            key: Text::copy_of(alloc, text.as_bytes())?,
            id: None,
        }),
        Kind::Link => Ok(Node::Link {
            target: Text::copy_of(alloc, text.as_bytes())?,
        }),
        _ => Ok(Node::Dir),
    }
}

fn put(
    rt: &impl Abort,
    alloc: Global,
    tree: &mut Tree,
    placed: Placed<'_>,
) -> Result<Result<(), TreeFault>, Fail> {
    let (path, kind, text) = placed;
    let node = node(alloc, kind, text)?;
    assert!(rt; is_path(path.as_bytes()));
    assert!(rt; is_node(&node));
    Ok(tree.put(path.as_bytes(), node))
}

// Whether the node clashes with a node of the tree.
fn clashes(
    rt: &impl Abort,
    alloc: Global,
    tree: &mut Tree,
    placed: Placed<'_>,
) -> Result<bool, Fail> {
    Ok(put(rt, alloc, tree, placed)? == Err(TreeFault::Clash))
}

/// A tree in which these were put one after another.
pub(super) fn tree_of(rt: &impl Abort, alloc: Global, nodes: &[Placed<'_>]) -> Result<Tree, Fail> {
    let mut tree = Tree::new(alloc);
    for placed in nodes {
        put(rt, alloc, &mut tree, *placed)??;
    }
    Ok(tree)
}

/// The key of a file, the target of a link, or a word for any other kind.
pub(super) fn shown(node: Option<&Node>) -> &[u8] {
    match node {
        None => b"none",
        Some(Node::Dir) => b"dir",
        Some(Node::File { key, .. }) => key.as_bytes(),
        Some(Node::Link { target }) => target.as_bytes(),
    }
}

fn is_shown(tree: &Tree, path: &str, want: &str) -> bool {
    shown(tree.node(path.as_bytes())) == want.as_bytes()
}

/// Whether the path has this kind in the tree.
pub(super) fn is_kind(tree: &Tree, path: &str, kind: Kind) -> bool {
    tree.kind(path.as_bytes()) == kind
}

// Whether these are the paths of the nodes, each followed by a bar.
fn are_paths(alloc: Global, tree: &Tree, want: &str) -> Result<bool, Fail> {
    let mut text = Vec::new(alloc);
    for (path, _) in tree.nodes() {
        text.extend_from_slice(path)?;
        text.push(b'|')?;
    }
    Ok(text.as_slice() == want.as_bytes())
}

// Whether these are the names directly below the path, each followed by a bar.
fn are_children(alloc: Global, tree: &Tree, path: &str, want: &str) -> Result<bool, Fail> {
    let mut text = Vec::new(alloc);
    for name in tree.children(path.as_bytes()) {
        text.extend_from_slice(name)?;
        text.push(b'|')?;
    }
    Ok(text.as_slice() == want.as_bytes())
}

#[test]
fn what_lies_below_comes_directly_after(rt: HostRuntime) -> Result<(), Fail> {
    let nodes = &[
        ("/a-b", Kind::Dir, ""),
        ("/a/x", Kind::Dir, ""),
        ("/a", Kind::Dir, ""),
    ];
    let tree = tree_of(&rt, rt.alloc(), nodes)?;
    assert!(rt; are_paths(rt.alloc(), &tree, "/a|/a/x|/a-b|")?);
    assert_eq!(rt; tree.len(), 3);
    Ok(())
}

#[test]
fn nothing_is_below_a_file(rt: HostRuntime) -> Result<(), Fail> {
    let alloc = rt.alloc();
    let mut tree = tree_of(&rt, alloc, &[("/a", Kind::File, "k")])?;
    let below = ("/a/b/c", Kind::Dir, "");
    assert!(rt; clashes(&rt, alloc, &mut tree, below)?);
    put(&rt, alloc, &mut tree, ("/c/d", Kind::Dir, ""))??;
    let above = ("/c", Kind::File, "k");
    assert!(rt; clashes(&rt, alloc, &mut tree, above)?);
    put(&rt, alloc, &mut tree, ("/c", Kind::Dir, ""))??;
    assert!(rt; is_kind(&tree, "/a", Kind::File));
    assert_eq!(rt; tree.len(), 3);
    Ok(())
}

#[test]
fn a_put_replaces(rt: HostRuntime) -> Result<(), Fail> {
    let nodes = &[("/a", Kind::File, "old"), ("/a", Kind::File, "new")];
    let tree = tree_of(&rt, rt.alloc(), nodes)?;
    assert_eq!(rt; tree.len(), 1);
    assert!(rt; is_kind(&tree, "/a", Kind::File));
    assert!(rt; is_shown(&tree, "/a", "new"));
    Ok(())
}

#[test]
fn children_come_once_in_the_order_of_their_bytes(rt: HostRuntime) -> Result<(), Fail> {
    let nodes = &[
        ("/a/y/z", Kind::Dir, ""),
        ("/a/x", Kind::File, "k"),
        ("/a-b", Kind::Dir, ""),
    ];
    let tree = tree_of(&rt, rt.alloc(), nodes)?;
    assert!(rt; are_children(rt.alloc(), &tree, "/", "a|a-b|")?);
    assert!(rt; are_children(rt.alloc(), &tree, "/a", "x|y|")?);
    assert!(rt; are_children(rt.alloc(), &tree, "/a/x", "")?);
    Ok(())
}

// The nodes of a tree of `/a` and `/a/x` after `/a` is removed.
const LEFT: &[(&str, Kind)] = &[
    ("/a", Kind::Dir),
    ("/a/x", Kind::Dir),
    ("/", Kind::Dir),
    ("/b", Kind::Absent),
];

#[test]
fn a_removal_leaves_what_lies_below(rt: HostRuntime) -> Result<(), Fail> {
    let nodes = &[("/a", Kind::Dir, ""), ("/a/x", Kind::Dir, "")];
    let mut tree = tree_of(&rt, rt.alloc(), nodes)?;
    assert!(rt; tree.remove(b"/a"));
    assert!(rt; !tree.remove(b"/a"));
    assert!(rt; is_shown(&tree, "/a", "none"));
    for (path, kind) in LEFT {
        assert!(rt; is_kind(&tree, path, *kind), "at {path}");
    }
    Ok(())
}

#[test]
fn a_path_has_names_between_slashes(rt: HostRuntime) -> Result<(), Fail> {
    assert!(rt; is_path(b"/usr/lib/libz.so.1"));
    for text in [
        b"".as_slice(),
        b"/",
        b"usr",
        b"/usr/",
        b"/usr//lib",
        b"/./usr",
        b"/usr/..",
        b"/u\0",
        b"/\xff",
    ] {
        assert!(rt; !is_path(text));
    }
    Ok(())
}
