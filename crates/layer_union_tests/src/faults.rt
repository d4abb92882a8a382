// Layers that have no union.
use crate::layers::{put, union_of};
use image_tree::{NODES_MAX, Tree};
use layer_union::{Trees, UnionFault, union};
use std::alloc::Global;
use std::process::Abort;
use std::test::Fail;

// Layers, the lowest first, and the place of the first bad whiteout.
const BAD: &[(&[&str], UnionFault)] = &[
    (&["/.wh."], UnionFault::BadWhiteout { layer: 0, node: 0 }),
    (&["/.wh.."], UnionFault::BadWhiteout { layer: 0, node: 0 }),
    (&["/.wh.../"], UnionFault::BadWhiteout { layer: 0, node: 0 }),
    (
        &["/a", "/b /.wh.@"],
        UnionFault::BadWhiteout { layer: 1, node: 0 },
    ),
    (
        &["/!a /.wh.."],
        UnionFault::BadWhiteout { layer: 0, node: 1 },
    ),
    // the nodes are counted in the order of their paths
    (
        &["/d/.wh. /.wh.x /a"],
        UnionFault::BadWhiteout { layer: 0, node: 2 },
    ),
    (
        &["/d/.wh.. /c/.wh. /b"],
        UnionFault::BadWhiteout { layer: 0, node: 1 },
    ),
    // the first layer comes first
    (
        &["/b /.wh..", "/.wh."],
        UnionFault::BadWhiteout { layer: 0, node: 0 },
    ),
];

#[test]
fn the_first_bad_whiteout_is_found(rt: HostRuntime) -> Result<(), Fail> {
    let alloc = rt.alloc();
    for (layers, want) in BAD {
        let fault = union_of(&rt, alloc, layers)?.err();
        assert!(rt; fault == Some(*want));
    }
    Ok(())
}

// A layer of this number of files.
fn files(rt: &impl Abort, alloc: Global, count: usize) -> Result<Tree, Fail> {
    let mut tree = Tree::new(alloc);
    for n in 0..count {
        let path = format!(in alloc; "/d/{n}")?;
        put(rt, alloc, &mut tree, path.as_bytes(), b"0")?;
    }
    Ok(tree)
}

fn one(rt: &impl Abort, alloc: Global, word: &str) -> Result<Tree, Fail> {
    let mut tree = Tree::new(alloc);
    put(rt, alloc, &mut tree, word.as_bytes(), b"0")?;
    Ok(tree)
}

// The union of NODES_MAX files and of layers of one node each.
fn over_full(
    rt: &impl Abort,
    alloc: Global,
    words: &[&str],
) -> Result<Result<Tree, UnionFault>, Fail> {
    let mut layers = Trees::new(alloc);
    layers.push(files(rt, alloc, NODES_MAX)?)?;
    for word in words {
        layers.push(one(rt, alloc, word)?)?;
    }
    Ok(union(alloc, layers))
}

#[test]
fn one_node_too_many_is_refused(rt: HostRuntime) -> Result<(), Fail> {
    // the third layer would make room
    let fault = over_full(&rt, rt.alloc(), &["/x", "/.wh.d"])?.err();
    assert!(rt; fault == Some(UnionFault::Full { layer: 1 }));
    Ok(())
}

#[test]
fn a_whiteout_makes_room(rt: HostRuntime) -> Result<(), Fail> {
    let tree = over_full(&rt, rt.alloc(), &["/d/.wh.7", "/x", "/d"])??;
    assert!(rt; tree.len() == 2);
    Ok(())
}
