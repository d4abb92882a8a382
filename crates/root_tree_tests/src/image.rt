// Images of the tests.
use lib_types::Text;
use root_folder::MemFolder;
use std::alloc::Global;
use std::process::Abort;
use std::test::Fail;
use tree_face::{Id, Kind, Node, Tree, is_node, is_path};

/// A path, a kind, and a key or a target.
pub(super) type Placed<'a> = (&'a str, Kind, &'a str);

fn node_of(alloc: Global, kind: Kind, text: &str) -> Result<Node, Fail> {
    let text = Text::copy_of(alloc, text.as_bytes())?;
    match kind {
        Kind::File => Ok(Node::File {
            key: text,
            id: Some(Id {
                dev: 1,
                inode: 2,
                ctime: 3,
                size: 4,
            }),
        }),
        Kind::Link => Ok(Node::Link { target: text }),
        _ => Ok(Node::Dir),
    }
}

fn tree_of(rt: &impl Abort, alloc: Global, nodes: &[Placed<'_>]) -> Result<Tree, Fail> {
    let mut tree = Tree::new(alloc);
    for (path, kind, text) in nodes {
        let node = node_of(alloc, *kind, text)?;
        assert!(rt; is_path(path.as_bytes()));
        assert!(rt; is_node(&node));
        tree.put(path.as_bytes(), node)?;
    }
    Ok(tree)
}

/// A directory with these nodes, in which the calls with these numbers fail.
pub(super) fn folder_of(
    rt: &impl Abort,
    alloc: Global,
    nodes: &[Placed<'_>],
    fail: &[u64],
) -> Result<MemFolder, Fail> {
    let tree = tree_of(rt, alloc, nodes)?;
    let fail = Vec::from_slice(alloc, fail)?;
    match MemFolder::new(alloc, tree, fail) {
        Some(folder) => Ok(folder),
        None => Err(Fail::from("not whole")),
    }
}

/// The nodes of a tree: each path, its node, and a bar.
pub(super) fn text_of(alloc: Global, tree: &Tree) -> Result<Vec<u8>, Fail> {
    let mut text = Vec::new(alloc);
    for (path, node) in tree.nodes() {
        text.extend_from_slice(path)?;
        match node {
            Node::Dir => text.extend_from_slice(b"/")?,
            Node::File { key, .. } => {
                text.extend_from_slice(b" = ")?;
                text.extend_from_slice(key.as_bytes())?;
            }
            Node::Link { target } => {
                text.extend_from_slice(b" -> ")?;
                text.extend_from_slice(target.as_bytes())?;
            }
        }
        text.push(b'|')?;
    }
    Ok(text)
}
