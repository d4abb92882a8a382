// The files to which paths and links lead (path_resolution(7)).
use crate::trees::{chain, put, tree_of};
use lib_types::{NoMemory, Text};
use path_walk::{file_at, linked_file};
use std::alloc::Global;
use std::process::Abort;
use std::test::Fail;
use tree_face::{Node, Tree};

fn is_file(found: &Option<Text>, want: Option<&str>) -> bool {
    match (found, want) {
        (Some(file), Some(want)) => file.as_bytes() == want.as_bytes(),
        (None, None) => true,
        _ => false,
    }
}

// Whether the path leads to this file, or to no file.
fn leads(alloc: Global, tree: &Tree, path: &str, want: Option<&str>) -> Result<bool, NoMemory> {
    let found = file_at(alloc, tree, path.as_bytes())?;
    Ok(is_file(&found, want))
}

// Whether a link with this target in the directory leads to this file, or to no file.
fn links(
    alloc: Global,
    tree: &Tree,
    folder: &str,
    target: &str,
    want: Option<&str>,
) -> Result<bool, NoMemory> {
    let found = linked_file(alloc, tree, folder.as_bytes(), target.as_bytes())?;
    Ok(is_file(&found, want))
}

// The links of `/usr/lib`, a directory without a node: their names, their targets, and the files to which they lead.
const LINKS: &[(&str, &str, Option<&str>)] = &[
    ("next_to", "x", Some("/usr/lib/x")),
    ("twice", "next_to", Some("/usr/lib/x")),
    ("liby.so", "liby.so.1", Some("/usr/lib/x")),
    ("liby.so.1", "./x", Some("/usr/lib/x")),
    ("dir", "sub", None),
    ("in_dir", "dir/y", Some("/usr/lib/sub/y")),
    ("back", "dir/../x", Some("/usr/lib/x")),
    ("nothing", "gone", None),
    ("past_nothing", "gone/../x", None),
    ("out", "../share/data", Some("/usr/share/data")),
    ("share", "../share", None),
    ("out_and_back", "share/../lib/x", Some("/usr/lib/x")),
    ("out_and_astray", "share/../x", None),
    ("far_out", "../../../usr/lib/x", Some("/usr/lib/x")),
    ("absolute", "/usr/share/data", Some("/usr/share/data")),
    ("other", "/usr/lib/out", Some("/usr/share/data")),
    ("root", "/", None),
    ("here", ".", None),
    ("above", "..", None),
    ("slash", "x/", Some("/usr/lib/x")),
    ("below_file", "x/y", None),
    ("above_file", "x/..", None),
    ("itself", "itself", None),
    ("no_node", "/usr", None),
];

fn tree_of_links(rt: &impl Abort, alloc: Global) -> Result<Tree, Fail> {
    let files = ["/usr/lib/x", "/usr/lib/sub/y", "/usr/share/data"];
    let mut tree = tree_of(rt, alloc, &[("/top", "usr/lib/x")], &files)?;
    put(rt, &mut tree, b"/usr/share", Node::Dir)?;
    for (name, target, _) in LINKS {
        let path = format!(in alloc; "/usr/lib/{name}")?;
        let target = Text::copy_of(alloc, target.as_bytes())?;
        put(rt, &mut tree, path.as_bytes(), Node::Link { target })?;
    }
    Ok(tree)
}

#[test]
fn links_lead_to_the_files(rt: HostRuntime) -> Result<(), Fail> {
    let alloc = rt.alloc();
    let tree = tree_of_links(&rt, alloc)?;
    for (name, target, want) in LINKS {
        let path = format!(in alloc; "/usr/lib/{name}")?;
        assert!(rt; leads(alloc, &tree, path.as_str(), *want)?, "{path}");
        assert!(rt; links(alloc, &tree, "/usr/lib", target, *want)?, "{name}");
    }
    Ok(())
}

const PATHS: &[(&str, Option<&str>)] = &[
    ("/usr/lib/x", Some("/usr/lib/x")),
    ("usr//lib/./x", Some("/usr/lib/x")),
    ("/usr/lib/share/data", Some("/usr/share/data")),
    ("/usr/lib", None),
    ("/usr/share", None),
    ("/usr/lib/gone", None),
    ("/", None),
    ("", None),
];

#[test]
fn paths_lead_to_files(rt: HostRuntime) -> Result<(), Fail> {
    let alloc = rt.alloc();
    let tree = tree_of_links(&rt, alloc)?;
    for (path, want) in PATHS {
        assert!(rt; leads(alloc, &tree, path, *want)?, "{path}");
    }
    Ok(())
}

#[test]
fn links_of_the_root_lead_to_files(rt: HostRuntime) -> Result<(), Fail> {
    let alloc = rt.alloc();
    let tree = tree_of_links(&rt, alloc)?;
    let file = Some("/usr/lib/x");
    assert!(rt; leads(alloc, &tree, "/top", file)?);
    assert!(rt; links(alloc, &tree, "/", "usr/lib/x", file)?);
    assert!(rt; links(alloc, &tree, "/", "../usr/lib/x", file)?);
    Ok(())
}

// A tree can't have a link with an empty target. A walk of an empty target ends at the directory.
#[test]
fn empty_target_leads_to_no_file(rt: HostRuntime) -> Result<(), Fail> {
    let alloc = rt.alloc();
    let tree = tree_of_links(&rt, alloc)?;
    assert!(rt; links(alloc, &tree, "/usr/lib", "", None)?);
    assert!(rt; links(alloc, &tree, "/", "", None)?);
    Ok(())
}

#[test]
fn forty_links_lead_to_a_file(rt: HostRuntime) -> Result<(), Fail> {
    let alloc = rt.alloc();
    let tree = chain(&rt, alloc, "file", &["/file"])?;
    let file = Some("/file");
    assert!(rt; leads(alloc, &tree, "/l40", file)?);
    assert!(rt; links(alloc, &tree, "/", "l39", file)?);
    assert!(rt; leads(alloc, &tree, "/l41", None)?);
    assert!(rt; links(alloc, &tree, "/", "l40", None)?);
    Ok(())
}
