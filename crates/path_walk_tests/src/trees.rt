// Trees of links and files.
use lib_types::Text;
use std::alloc::Global;
use std::process::Abort;
use std::test::Fail;
use tree_face::{Node, Tree, TreeFault, is_node, is_path};

pub fn put(rt: &impl Abort, tree: &mut Tree, path: &[u8], node: Node) -> Result<(), TreeFault> {
    assert!(rt; is_path(path));
    assert!(rt; is_node(&node));
    tree.put(path, node)
}

// Links by their paths and targets, and files by their paths.
pub fn tree_of(
    rt: &impl Abort,
    alloc: Global,
    links: &[(&str, &str)],
    files: &[&str],
) -> Result<Tree, Fail> {
    let mut tree = Tree::new(alloc);
    for (path, target) in links {
        let target = Text::copy_of(alloc, target.as_bytes())?;
        put(rt, &mut tree, path.as_bytes(), Node::Link { target })?;
    }
    for path in files {
        let key = Text::copy_of(alloc, b"key")?;
        put(rt, &mut tree, path.as_bytes(), Node::File { key, id: None })?;
    }
    Ok(tree)
}

// `/l1` leads to this target by one link, `/lN` by N, up to 41 of them.
pub fn chain(rt: &impl Abort, alloc: Global, target: &str, files: &[&str]) -> Result<Tree, Fail> {
    let mut tree = tree_of(rt, alloc, &[("/l1", target)], files)?;
    for n in 2..42u32 {
        let before = n - 1;
        let path = format!(in alloc; "/l{n}")?;
        let target = format!(in alloc; "l{before}")?;
        let target = Text::copy_of(alloc, target.as_bytes())?;
        put(rt, &mut tree, path.as_bytes(), Node::Link { target })?;
    }
    Ok(tree)
}
