// The calls that the loaders make, in order.
use hwcap_dirs::{Scope, order};
use lib_types::{Text, Texts};
use looked_places::{see_libraries, see_places};
use looked_tree::LookedPart;
use root_folder::{FolderCall, MemFolder};
use std::alloc::Global;
use std::process::Abort;
use std::test::Fail;
use tree_face::{Kind, Node, Tree, is_node, is_path};

// A path, a kind, and a link's target.
type Placed<'a> = (&'a str, Kind, &'a str);

// The nodes of a directory, a directory of the conf file, and the calls.
type Row<'a> = (&'a [Placed<'a>], &'a str, &'a str);

const ROWS: &[Row<'_>] = &[
    (&[], "/opt", "look /opt|look /lib|look /usr|look /lib64|"),
    // Other directories aren't listed, and the names in them are not looked up. Neither are names that aren't library names.
    (
        &[
            ("/home", Kind::Dir, ""),
            ("/home/a", Kind::Dir, ""),
            ("/lib", Kind::Link, "usr/lib"),
            ("/usr", Kind::Dir, ""),
            ("/usr/lib", Kind::Dir, ""),
            ("/usr/lib/liba.so", Kind::Link, "liba.so.1"),
            ("/usr/lib/liba.so.1", Kind::File, ""),
            ("/usr/lib/libb.so", Kind::Link, "b/c"),
            ("/usr/lib/other", Kind::File, ""),
        ],
        "/lib",
        "look /lib|look /usr|look /usr/lib|look /lib64|look /usr/lib64|look /usr/lib/glibc-hwcaps|names /usr/lib|\
         look /usr/lib/liba.so|look /usr/lib/liba.so.1|look /usr/lib/libb.so|look /usr/lib/b|",
    ),
];

fn node_of(alloc: Global, kind: Kind, text: &str) -> Result<Node, Fail> {
    let text = Text::copy_of(alloc, text.as_bytes())?;
    match kind {
        Kind::File => Ok(Node::File {
            key: Text::copy_of(alloc, b"/k")?,
            id: None,
        }),
        Kind::Link => Ok(Node::Link { target: text }),
        _ => Ok(Node::Dir),
    }
}

fn folder_of(rt: &impl Abort, alloc: Global, nodes: &[Placed<'_>]) -> Result<MemFolder, Fail> {
    let mut tree = Tree::new(alloc);
    for (path, kind, text) in nodes {
        let node = node_of(alloc, *kind, text)?;
        assert!(rt; is_path(path.as_bytes()));
        assert!(rt; is_node(&node));
        tree.put(path.as_bytes(), node)?;
    }
    match MemFolder::new(alloc, tree, Vec::new(alloc)) {
        Some(folder) => Ok(folder),
        None => Err(Fail::from("not whole")),
    }
}

fn calls_of(alloc: Global, calls: &[FolderCall]) -> Result<Vec<u8>, Fail> {
    let mut text = Vec::new(alloc);
    for call in calls {
        match call {
            FolderCall::Look { path } => {
                text.extend_from_slice(b"look ")?;
                text.extend_from_slice(path.as_bytes())?;
            }
            FolderCall::Names { dir } => {
                text.extend_from_slice(b"names ")?;
                text.extend_from_slice(dir.as_bytes())?;
            }
            _ => text.extend_from_slice(b"writes")?,
        }
        text.push(b'|')?;
    }
    Ok(text)
}

// Looks up what an update needs.
fn see(
    alloc: Global,
    looked: &mut LookedPart,
    folder: &mut MemFolder,
    conf: &Texts,
) -> Result<(), Fail> {
    if see_places(alloc, looked, folder, &Scope::Image, conf).is_err() {
        return Err(Fail::from("places"));
    }
    let dirs = order(alloc, &Scope::Image, looked.tree(), conf)?;
    if see_libraries(alloc, looked, folder, &dirs.places).is_err() {
        return Err(Fail::from("libraries"));
    }
    Ok(())
}

#[test]
fn each_path_is_looked_up_once(rt: HostRuntime) -> Result<(), Fail> {
    let alloc = rt.alloc();
    for (nodes, dir, want) in ROWS {
        let mut folder = folder_of(&rt, alloc, nodes)?;
        let mut looked = LookedPart::new(alloc);
        let mut conf = Texts::new(alloc);
        conf.push(Text::copy_of(alloc, dir.as_bytes())?)?;
        see(alloc, &mut looked, &mut folder, &conf)?;
        see(alloc, &mut looked, &mut folder, &conf)?;
        let calls = calls_of(alloc, folder.calls())?;
        assert!(rt; calls.as_slice() == want.as_bytes());
    }
    Ok(())
}
