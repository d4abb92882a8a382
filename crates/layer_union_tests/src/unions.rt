// Unions of layers. A word is a path. It ends with `/` for a directory, with `@` for a link. The files and links of a layer have its number.
use crate::layers::{union_of, words_of};
use std::alloc::Global;
use std::process::Abort;
use std::test::Fail;

// Layers, the lowest first, and the words of their union.
type Union<'a> = (&'a [&'a str], &'a str);

// The five ways to hide a node, each at the root, one level down and three levels down.
const HIDDEN: &[Union<'static>] = &[
    // by a whiteout of the path
    (&["/a /b", "/.wh.a"], "/b=0|"),
    (&["/d/a /d/b", "/d/.wh.a"], "/d/b=0|"),
    (&["/x/y/z/a /x/y/z/b", "/x/y/z/.wh.a"], "/x/y/z/b=0|"),
    // by a whiteout of a path above it
    (&["/d/ /d/a /d/e/f /da", "/.wh.d"], "/da=0|"),
    (&["/x/d/ /x/d/a /x/da", "/x/.wh.d"], "/x/da=0|"),
    (
        &["/x/y/z/d/ /x/y/z/d/e/f /x/y/z/da", "/x/y/z/.wh.d"],
        "/x/y/z/da=0|",
    ),
    // by an opaque directory above it
    (&["/a /d/b", "/.wh..wh..opq /c"], "/c=1|"),
    (&["/d/ /d/a /d/e/f /g", "/d/.wh..wh..opq"], "/d/|/g=0|"),
    (
        &["/x/y/z/ /x/y/z/a /x/y/b", "/x/y/z/.wh..wh..opq /x/y/z/n"],
        "/x/y/b=0|/x/y/z/|/x/y/z/n=1|",
    ),
    // by a node at the path
    (&["/a /b", "/a"], "/a=1|/b=0|"),
    (&["/d/a", "/d/a@"], "/d/a@1|"),
    (&["/x/y/z/a", "/x/y/z/a/"], "/x/y/z/a/|"),
    // by a file or link above it
    (&["/a/b/c /a/d", "/a"], "/a=1|"),
    (&["/u/lib/x /u/y", "/u/lib@"], "/u/lib@1|/u/y=0|"),
    (&["/x/y/z/a /x/y/w", "/x/y/z"], "/x/y/w=0|/x/y/z=1|"),
    // a file or link by a node below it
    (&["/a", "/a/b"], "/a/b=1|"),
    (&["/u/a@", "/u/a/b"], "/u/a/b=1|"),
    (&["/x/y/z", "/x/y/z/a/b/c"], "/x/y/z/a/b/c=1|"),
];

// What a layer doesn't hide.
const KEPT: &[Union<'static>] = &[
    // its own nodes
    (&["/a /c", "/a /.wh.a /.wh.c"], "/a=1|"),
    (&["/d/a", "/d/.wh..wh..opq /d/b"], "/d/b=1|"),
    // the node of an opaque directory
    (&["/d/", "/d/.wh..wh..opq"], "/d/|"),
    // a longer name
    (&["/ab /a/b", "/.wh.a"], "/ab=0|"),
    // what isn't there
    (&["/a", "/.wh.b"], "/a=0|"),
    // what a directory has below it
    (&["/a/b", "/a/"], "/a/|/a/b=0|"),
    // a directory with nodes below it
    (&["/a/", "/a/b"], "/a/|/a/b=1|"),
    // a file above a special path
    (&["/a", "/a/.wh.b"], "/a=0|"),
    (&["/a", "/a/.wh..wh..opq"], "/a=0|"),
    // nodes of a layer above
    (&["/a", "/.wh.a", "/a"], "/a=2|"),
    (&["/.wh.a", "/a"], "/a=1|"),
];

// Special paths.
const SPECIAL: &[Union<'static>] = &[
    // they aren't nodes of the union
    (&["/.wh.a /b /.wh..wh.c /.wh.d/e"], "/b=0|"),
    // reserved names mark nothing
    (&["/a /x", "/.wh..wh.x /.wh..wh.a"], "/a=0|/x=0|"),
    (&["/a", "/.wh..wh."], "/a=0|"),
    (&["/a /d/b", "/.wh..wh..opqa"], "/a=0|/d/b=0|"),
    // what is below a special path marks nothing
    (&["/a/b /c", "/.wh.d/.wh.c /.wh.d/e"], "/a/b=0|/c=0|"),
    (&["/.wh.d/a /b", "/.wh.d/.wh..wh..opq /.wh.d/.wh."], "/b=0|"),
    // directories and links are whiteouts too
    (&["/a /b /c", "/.wh.a/ /.wh.b@"], "/c=0|"),
];

// More than two layers.
const SEVERAL: &[Union<'static>] = &[
    (&[], ""),
    (&["/a"], "/a=0|"),
    // the file that a layer turned into a directory doesn't come back
    (&["/a", "/a/b", "/a/.wh.b"], ""),
    (&["/a/b", "/a", "/.wh.a", "/a/c"], "/a/c=3|"),
    (
        &["/a /d/x", "/b /d/y", "/c /.wh.a /d/.wh.x"],
        "/b=1|/c=2|/d/y=1|",
    ),
    (&["/a", "/.wh..wh..opq", "/b", "/.wh..wh..opq /c"], "/c=3|"),
    (&["/lib/a", "/lib@", "/lib/b"], "/lib/b=2|"),
];

fn check(rt: &impl Abort, alloc: Global, rows: &[Union<'_>]) -> Result<(), Fail> {
    for (layers, want) in rows {
        let tree = union_of(rt, alloc, layers)??;
        let words = words_of(alloc, &tree)?;
        assert!(rt; words.as_slice() == want.as_bytes(), "{want}");
    }
    Ok(())
}

#[test]
fn a_layer_hides_nodes_in_five_ways(rt: HostRuntime) -> Result<(), Fail> {
    check(&rt, rt.alloc(), HIDDEN)
}

#[test]
fn a_layer_hides_nothing_else(rt: HostRuntime) -> Result<(), Fail> {
    check(&rt, rt.alloc(), KEPT)
}

#[test]
fn special_paths_are_marks_or_nothing(rt: HostRuntime) -> Result<(), Fail> {
    check(&rt, rt.alloc(), SPECIAL)
}

#[test]
fn several_layers_are_one_union(rt: HostRuntime) -> Result<(), Fail> {
    check(&rt, rt.alloc(), SEVERAL)
}
