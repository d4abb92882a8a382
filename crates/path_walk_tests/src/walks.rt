// Where paths lead, in both modes.
use crate::trees::{chain, tree_of};
use path_walk::{Mode, WalkFault, resolve};
use std::alloc::Global;
use std::test::Fail;
use tree_face::Tree;

// Whether the path resolves to this path, or its walk ends with this fault.
fn leads(
    alloc: Global,
    tree: &Tree,
    path: &str,
    mode: Mode,
    want: Result<&str, WalkFault>,
) -> bool {
    match (resolve(alloc, tree, path.as_bytes(), mode), want) {
        (Ok(place), Ok(want)) => place.as_bytes() == want.as_bytes(),
        (Err(fault), Err(want)) => fault == want,
        _ => false,
    }
}

const LINKS: &[(&str, &str)] = &[
    ("/lib", "usr/lib"),
    ("/a", "/b"),
    ("/b", "/a"),
    ("/usr/lib/libk.so", "x"),
    ("/usr/up", ".."),
    ("/usr/lib/far", "/usr//./lib/../lib/"),
];

// Paths of a tree of these links and `/usr/lib/x`.
const ROWS: &[(&str, Mode, Result<&str, WalkFault>)] = &[
    ("/lib/../lib/x", Mode::Full, Ok("/usr/lib/x")),
    ("/a/x", Mode::Full, Err(WalkFault::TooManyLinks)),
    ("/lib/x/y", Mode::Full, Err(WalkFault::NotDir)),
    ("/lib/x/..", Mode::Full, Err(WalkFault::NotDir)),
    ("/lib/x/.", Mode::Full, Ok("/usr/lib/x")),
    ("/lib/libk.so", Mode::Full, Ok("/usr/lib/x")),
    ("/lib/libk.so", Mode::Plain, Err(WalkFault::Absent)),
    ("/lib/libk.so/y", Mode::Plain, Err(WalkFault::Absent)),
    ("/lib/x", Mode::Plain, Ok("/usr/lib/x")),
    ("lib//./x", Mode::Plain, Ok("/usr/lib/x")),
    ("", Mode::Plain, Ok("/")),
    ("/..", Mode::Plain, Ok("/")),
    ("/usr/up/usr", Mode::Plain, Ok("/usr")),
    ("/usr/lib/far/x", Mode::Plain, Ok("/usr/lib/x")),
    ("/lib/none", Mode::Full, Err(WalkFault::Absent)),
    ("/lib/none/..", Mode::Full, Err(WalkFault::Absent)),
];

#[test]
fn paths_lead_where_the_links_say(rt: HostRuntime) -> Result<(), Fail> {
    let alloc = rt.alloc();
    let tree = tree_of(&rt, alloc, LINKS, &["/usr/lib/x"])?;
    for (path, mode, want) in ROWS {
        assert!(rt; leads(alloc, &tree, path, *mode, *want), "{path}");
    }
    Ok(())
}

#[test]
fn forty_links_are_followed(rt: HostRuntime) -> Result<(), Fail> {
    let alloc = rt.alloc();
    let tree = chain(&rt, alloc, "/", &[])?;
    assert!(rt; leads(alloc, &tree, "/l40", Mode::Plain, Ok("/")));
    let too_many = Err(WalkFault::TooManyLinks);
    assert!(rt; leads(alloc, &tree, "/l41", Mode::Plain, too_many));
    Ok(())
}
