// Layers that are written as words, and the text of a tree.
use image_tree::{Node, Tree, is_node, is_path};
use layer_union::{Trees, UnionFault, union};
use lib_types::{NoMemory, Text};
use std::alloc::Global;
use std::process::Abort;
use std::test::Fail;

// The path of a word, and the byte that says the kind of its node: a directory's word ends with `/`, a link's with `@`.
fn parts(word: &[u8]) -> (&[u8], u8) {
    match word.split_last() {
        Some((last, path)) if *last == b'/' || *last == b'@' => (path, *last),
        _ => (word, b'='),
    }
}

// The node of this kind. The text is a file's key or a link's target.
fn node(alloc: Global, kind: u8, text: &[u8]) -> Result<Node, NoMemory> {
    if kind == b'/' {
        return Ok(Node::Dir);
    }
    let text = Text::copy_of(alloc, text)?;
    if kind == b'@' {
        return Ok(Node::Link { target: text });
    }
    Ok(Node::File {
        key: text,
        id: None,
    })
}

/// Puts the node of a word into a layer.
pub(super) fn put(
    rt: &impl Abort,
    alloc: Global,
    tree: &mut Tree,
    word: &[u8],
    text: &[u8],
) -> Result<(), Fail> {
    let (path, kind) = parts(word);
    let node = node(alloc, kind, text)?;
    assert!(rt; is_path(path));
    assert!(rt; is_node(&node));
    tree.put(path, node)?;
    Ok(())
}

// The layer of words that are separated by blanks.
fn layer(rt: &impl Abort, alloc: Global, words: &str, text: &str) -> Result<Tree, Fail> {
    let mut tree = Tree::new(alloc);
    for word in words.as_bytes().split(|&b| b == b' ') {
        put(rt, alloc, &mut tree, word, text.as_bytes())?;
    }
    Ok(tree)
}

// The key of the files of each layer, and the target of its links.
const NUMBERS: &[&str] = &["0", "1", "2", "3"];

/// The union of layers, each of which is given by its words.
pub(super) fn union_of(
    rt: &impl Abort,
    alloc: Global,
    layers: &[&str],
) -> Result<Result<Tree, UnionFault>, Fail> {
    let mut trees = Trees::new(alloc);
    for (words, number) in layers.iter().zip(NUMBERS) {
        trees.push(layer(rt, alloc, words, number)?)?;
    }
    Ok(union(alloc, trees))
}

// Appends the word of a node, with a file's key or a link's target, and a bar.
fn push_word(text: &mut Vec<u8>, path: &[u8], node: &Node) -> Result<(), NoMemory> {
    text.extend_from_slice(path)?;
    match node {
        Node::Dir => text.push(b'/')?,
        Node::File { key, .. } => {
            text.push(b'=')?;
            text.extend_from_slice(key.as_bytes())?;
        }
        Node::Link { target } => {
            text.push(b'@')?;
            text.extend_from_slice(target.as_bytes())?;
        }
    }
    text.push(b'|')?;
    Ok(())
}

/// The words of a tree's nodes.
pub(super) fn words_of(alloc: Global, tree: &Tree) -> Result<Vec<u8>, NoMemory> {
    let mut text = Vec::new(alloc);
    for (path, node) in tree.nodes() {
        push_word(&mut text, path, node)?;
    }
    Ok(text)
}
