//! The tree of a row's directory.
use image_rows::tree_of;
use lib_types::{NoMemory, Text, Texts};
use mtree_manifest::write;
use path_walk::parted;
use std::alloc::Global;
use table_rows::{Differences, Row, divide};
use tree_face::{Node, Tree, TreeFault, is_node, is_path};

fn paths_in(alloc: Global, tree: &Tree) -> Result<Texts, NoMemory> {
    let mut paths = Texts::new(alloc);
    for (path, _) in tree.nodes() {
        paths.push(Text::copy_of(alloc, path)?)?;
    }
    Ok(paths)
}

// Puts the node at the path, if the tree accepts it.
fn put(tree: &mut Tree, path: &[u8], node: Node) -> Result<(), NoMemory> {
    if !is_path(path) {
        return Ok(());
    }
    if !is_node(&node) {
        return Ok(());
    }
    match tree.put(path, node) {
        Err(TreeFault::NoMemory) => Err(NoMemory),
        _ => Ok(()),
    }
}

// Puts the directories above a path that have no node.
fn put_dirs(tree: &mut Tree, path: &[u8]) -> Result<(), NoMemory> {
    let mut dir = parted(path).0;
    for _ in 0..path.len() {
        if tree.node(dir).is_some() {
            break;
        }
        put(tree, dir, Node::Dir)?;
        dir = parted(dir).0;
    }
    Ok(())
}

/// The tree of the row's manifest, in which each parent directory has a node.
pub fn whole_tree(
    alloc: Global,
    row: Row<'_>,
    differences: &mut Differences,
) -> Result<Option<Tree>, NoMemory> {
    let Some(mut tree) = tree_of(alloc, row, differences)? else {
        return Ok(None);
    };
    let paths = paths_in(alloc, &tree)?;
    for path in paths.as_slice() {
        put_dirs(&mut tree, path.as_bytes())?;
    }
    Ok(Some(tree))
}

/// A link with this target.
pub fn link_node(alloc: Global, target: &[u8]) -> Result<Node, NoMemory> {
    Ok(Node::Link {
        target: Text::copy_of(alloc, target)?,
    })
}

/// Puts the link `PATH TARGET`.
pub fn put_link(alloc: Global, tree: &mut Tree, link: &[u8]) -> Result<(), NoMemory> {
    let (path, target) = divide(b' ', link);
    let node = link_node(alloc, target)?;
    put(tree, path, node)
}

/// The links of some writing calls: `PATH TARGET` of each line `link PATH TARGET`.
pub fn links_in(alloc: Global, calls: &[u8]) -> Result<Texts, NoMemory> {
    let mut links = Texts::new(alloc);
    let mut rest = calls;
    for _ in 0..calls.len() {
        let (line, after) = divide(b'\n', rest);
        let (word, link) = divide(b' ', line);
        if word == b"link".as_slice() {
            links.push(Text::copy_of(alloc, link)?)?;
        }
        rest = after;
    }
    Ok(links)
}

// The canonical text of the tree with these links.
fn text_of(alloc: Global, tree: Tree, links: &Texts) -> Result<Vec<u8>, NoMemory> {
    let mut tree = tree;
    for link in links.as_slice() {
        put_link(alloc, &mut tree, link.as_bytes())?;
    }
    write(alloc, &tree)
}

/// The canonical text of the row's tree with the links of these calls. It is empty if the row has no tree.
pub fn text_with(
    alloc: Global,
    row: Row<'_>,
    calls: &[u8],
    differences: &mut Differences,
) -> Result<Vec<u8>, NoMemory> {
    let links = links_in(alloc, calls)?;
    match whole_tree(alloc, row, differences)? {
        Some(tree) => text_of(alloc, tree, &links),
        None => Ok(Vec::new(alloc)),
    }
}
