// The image of the tests.
use lib_types::Text;
use root_folder::{Folder, FolderRead, MemFolder};
use std::alloc::Global;
use std::process::Abort;
use std::test::Fail;
use tree_face::{Id, Kind, Node, Tag, Tree, is_node, is_path};

/// A path, a kind, and a key or a target.
pub(super) type Placed<'a> = (&'a str, Kind, &'a str);

const NODES: &[Placed<'_>] = &[
    ("/bin", Kind::Link, "usr/bin"),
    ("/etc", Kind::Dir, ""),
    ("/usr", Kind::Dir, ""),
    ("/usr/lib", Kind::Dir, ""),
    ("/usr/lib/a.b", Kind::File, "/usr/lib/a.b"),
    ("/usr/lib/a-c", Kind::Link, "a.b"),
    ("/usr/lib/a", Kind::Dir, ""),
    ("/usr/lib/a/deep", Kind::File, "/usr/lib/a/deep"),
];

/// A node of this kind.
pub(super) fn node_of(alloc: Global, kind: Kind, text: &str) -> Result<Node, Fail> {
    let text = Text::copy_of(alloc, text.as_bytes())?;
    match kind {
        Kind::File => Ok(Node::File {
            key: text,
            id: Some(Id {
                dev: 1,
                inode: 2,
                ctime: 3,
                size: 4,
            }),
        }),
        Kind::Link => Ok(Node::Link { target: text }),
        _ => Ok(Node::Dir),
    }
}

/// A tree of these nodes.
pub(super) fn tree_of(rt: &impl Abort, alloc: Global, nodes: &[Placed<'_>]) -> Result<Tree, Fail> {
    let mut tree = Tree::new(alloc);
    for (path, kind, text) in nodes {
        let node = node_of(alloc, *kind, text)?;
        assert!(rt; is_path(path.as_bytes()));
        assert!(rt; is_node(&node));
        tree.put(path.as_bytes(), node)?;
    }
    Ok(tree)
}

/// The image, in which the calls with these numbers fail.
pub(super) fn folder_of(rt: &impl Abort, alloc: Global, fail: &[u64]) -> Result<MemFolder, Fail> {
    let tree = tree_of(rt, alloc, NODES)?;
    let fail = Vec::from_slice(alloc, fail)?;
    match MemFolder::new(alloc, tree, fail) {
        Some(folder) => Ok(folder),
        None => Err(Fail::from("not whole")),
    }
}

/// The names of a directory, each followed by a bar, or why there are none.
pub(super) fn names_of<F: Folder>(
    alloc: Global,
    folder: &mut F,
    dir: &str,
) -> Result<Vec<u8>, Fail> {
    let mut text = Vec::new(alloc);
    match folder.names(alloc, dir.as_bytes()) {
        Ok(names) => {
            for name in names.as_slice() {
                text.extend_from_slice(name.as_bytes())?;
                text.push(b'|')?;
            }
        }
        Err(FolderRead::Failed) => text.extend_from_slice(b"failed")?,
        Err(FolderRead::NoMemory) => text.extend_from_slice(b"no memory")?,
    }
    Ok(text)
}

fn shown(alloc: Global, node: Option<&Node>) -> Result<Vec<u8>, Fail> {
    let text: &[u8] = match node {
        None => b"none",
        Some(Node::Dir) => b"dir",
        Some(Node::File { key, .. }) => key.as_bytes(),
        Some(Node::Link { target }) => target.as_bytes(),
    };
    Ok(Vec::from_slice(alloc, text)?)
}

/// The key of a file, the target of a link, or a word for anything else at the path; or why it can't be read.
pub(super) fn look_of<F: Folder>(
    alloc: Global,
    folder: &mut F,
    path: &str,
) -> Result<Vec<u8>, Fail> {
    match folder.look(alloc, path.as_bytes()) {
        Ok(found) => shown(alloc, found.as_ref()),
        Err(FolderRead::Failed) => Ok(Vec::from_slice(alloc, b"failed")?),
        Err(FolderRead::NoMemory) => Ok(Vec::from_slice(alloc, b"no memory")?),
    }
}

/// Makes a link, and returns whether it was made.
pub(super) fn link<F: Folder>(
    rt: &impl Abort,
    alloc: Global,
    folder: &mut F,
    path: &str,
    target: &str,
) -> Result<bool, Fail> {
    let node = Node::Link {
        target: Text::copy_of(alloc, target.as_bytes())?,
    };
    assert!(rt; is_path(path.as_bytes()));
    assert!(rt; is_node(&node));
    Ok(
        folder
            .link(Tag(7), path.as_bytes(), target.as_bytes())
            .is_ok(),
    )
}

/// Whether a crash now may leave at the path this link, or nothing if it is empty.
pub(super) fn may_leave(
    alloc: Global,
    folder: &MemFolder,
    path: &str,
    target: &str,
) -> Result<bool, Fail> {
    if target.is_empty() {
        return Ok(folder.may_leave(path.as_bytes(), None));
    }
    let node = node_of(alloc, Kind::Link, target)?;
    Ok(folder.may_leave(path.as_bytes(), Some(&node)))
}
