//! Images of links, libraries and other files.
use crate::fault::ImageFault;
use file_table::Table;
use hwcap_dirs::{Dirs, Scope, order};
use lib_types::{Abi, Analysis, NoMemory, Text, Texts, is_name};
use std::alloc::Global;
use tree_face::{Node, Tree, TreeFault, is_node, is_path};

/// A link's path and its target.
pub(crate) type Link<'a> = (&'a str, &'a str);

/// A library's path and DT_SONAME. An empty DT_SONAME means none.
pub(crate) type Library<'a> = (&'a str, &'a str);

/// A tree with the analyses of its files, and its directories.
#[derive(Drop)]
pub(crate) struct Image {
    pub(crate) tree: Tree,
    pub(crate) table: Table,
    pub(crate) dirs: Dirs,
}

// Puts a node that a tree can have.
fn put(tree: &mut Tree, path: &[u8], node: Node) -> Result<(), ImageFault> {
    if !is_path(path) || !is_node(&node) {
        return Err(ImageFault::NoImage);
    }
    match tree.put(path, node) {
        Ok(()) => Ok(()),
        Err(TreeFault::NoMemory) => Err(ImageFault::NoMemory),
        Err(_) => Err(ImageFault::NoImage),
    }
}

// Puts a file, whose content has its path as key.
fn put_file(alloc: Global, tree: &mut Tree, path: &str) -> Result<(), ImageFault> {
    let key = Text::copy_of(alloc, path.as_bytes())?;
    put(tree, path.as_bytes(), Node::File { key, id: None })
}

/// Puts a link.
pub(crate) fn put_link(
    alloc: Global,
    tree: &mut Tree,
    path: &str,
    target: &str,
) -> Result<(), ImageFault> {
    let target = Text::copy_of(alloc, target.as_bytes())?;
    put(tree, path.as_bytes(), Node::Link { target })
}

// The DT_SONAME in a text, where the empty text means none.
fn soname_of(alloc: Global, soname: &str) -> Result<Option<Text>, NoMemory> {
    if soname.is_empty() {
        return Ok(None);
    }
    Ok(Some(Text::copy_of(alloc, soname.as_bytes())?))
}

/// Puts a library with its analysis.
pub(crate) fn put_library(
    alloc: Global,
    image: &mut Image,
    path: &str,
    abi: Abi,
    soname: &str,
) -> Result<(), ImageFault> {
    put_file(alloc, &mut image.tree, path)?;
    let path = Text::copy_of(alloc, path.as_bytes())?;
    let soname = soname_of(alloc, soname)?;
    if let Some(soname) = &soname
        && !is_name(soname.as_bytes())
    {
        return Err(ImageFault::NoImage);
    }
    image.table.insert(path, Analysis::Lib { abi, soname })?;
    Ok(())
}

// These texts as a list.
fn texts_of(alloc: Global, list: &[&str]) -> Result<Texts, NoMemory> {
    let mut texts = Texts::new(alloc);
    for text in list {
        texts.push(Text::copy_of(alloc, text.as_bytes())?)?;
    }
    Ok(texts)
}

// A tree of these links.
fn tree_of(alloc: Global, links: &[Link<'_>]) -> Result<Tree, ImageFault> {
    let mut tree = Tree::new(alloc);
    for (path, target) in links {
        put_link(alloc, &mut tree, path, target)?;
    }
    Ok(tree)
}

/// An image of these links, and of these libraries for x86-64, with these directories in its conf file.
pub(crate) fn image_of(
    alloc: Global,
    links: &[Link<'_>],
    libraries: &[Library<'_>],
    conf: &[&str],
) -> Result<Image, ImageFault> {
    let tree = tree_of(alloc, links)?;
    let conf = texts_of(alloc, conf)?;
    let mut image = Image {
        dirs: order(alloc, &Scope::Image, &tree, &conf)?,
        tree,
        table: Table::new(alloc),
    };
    for (path, soname) in libraries {
        put_library(alloc, &mut image, path, Abi::X86_64, soname)?;
    }
    image.dirs = order(alloc, &Scope::Image, &image.tree, &conf)?;
    Ok(image)
}
