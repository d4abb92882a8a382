//! The libraries of a directory of a machine.
use real_folder_fixture::{
    Answer, Image, RUN, Step, is_same_answer, names_of, no_memory, node_of_link, node_on_disk,
};
use root_folder::Folder;
use root_real::RootFolder;
use std::io;
use tree_face::{Kind, Tag};
use trial_devices::{Report, Trial};

// A directory of a machine.
const MACHINE: Image = Image {
    root: "machine",
    rows: &[
        ("/glibc-hwcaps", Kind::Dir, ""),
        ("/glibc-hwcaps/note", Kind::File, "note"),
        ("/glibc-hwcaps/v3", Kind::Dir, ""),
        ("/glibc-hwcaps/v3/libdir.so", Kind::Dir, ""),
        ("/glibc-hwcaps/v3/libdir.so/libq.so", Kind::File, "q"),
        ("/glibc-hwcaps/v3/libx.so.1", Kind::File, "x3"),
        ("/glibc-hwcaps/v3/other", Kind::File, "other"),
        ("/ld-linux.so.2", Kind::File, "loader"),
        ("/libabsolute.so", Kind::Link, "/etc/passwd"),
        ("/libdir.so", Kind::Dir, ""),
        ("/libdir.so/libq.so", Kind::File, "q"),
        ("/libdots.so", Kind::Link, "..x"),
        ("/libup.so", Kind::Link, "sub/../libx.so.1"),
        ("/libx.so", Kind::Link, "libx.so.1"),
        ("/libx.so.1", Kind::File, "x"),
        ("/libx.so.1;tmp", Kind::File, "x"),
        ("/other", Kind::File, "other"),
        ("/sub", Kind::Dir, ""),
        ("/sub/liby.so", Kind::File, "y"),
    ],
};

// The directories that belong to the tree, with the names in them that do; and others.
const NAMES: &[(&str, &[&str])] = &[
    (
        "/",
        &[
            "glibc-hwcaps",
            "ld-linux.so.2",
            "libabsolute.so",
            "libdir.so",
            "libdots.so",
            "libup.so",
            "libx.so",
            "libx.so.1",
        ],
    ),
    ("/glibc-hwcaps", &["note", "v3"]),
    ("/glibc-hwcaps/v3", &["libdir.so", "libx.so.1"]),
    ("/glibc-hwcaps/v3/libdir.so", &[]),
    ("/libdir.so", &[]),
    ("/sub", &[]),
];

// The nodes that don't belong to the tree.
const OUT: &[&str] = &[
    "/glibc-hwcaps/v3/libdir.so/libq.so",
    "/glibc-hwcaps/v3/other",
    "/libdir.so/libq.so",
    "/libx.so.1;tmp",
    "/other",
    "/sub",
    "/sub/liby.so",
];

// The links that may lead out of the directory. In the tree they lead to no file.
const LEADING_OUT: &[&str] = &["/libabsolute.so", "/libup.so"];

fn has(paths: &[&str], path: &str) -> bool {
    paths.iter().any(|other| *other == path)
}

/// Lists and looks at a directory of libraries.
pub fn try_libraries(rt: &HostRuntime, trial: &Trial, report: &mut Report<'_>) -> io::Result<()> {
    report.begin("a directory of libraries");
    MACHINE.make(rt)?;
    let mut real = RootFolder::of_libraries(trial.clone()?, MACHINE.root, RUN).map_err(
        |_| no_memory(),
    )?;
    for (dir, names) in NAMES {
        let expected = names_of(rt, names)?;
        expect(
            rt,
            &mut real,
            Step::Names(dir.as_bytes()),
            &expected,
            report,
        )?;
    }
    for (path, _, _) in MACHINE.rows {
        let expected = node_in_tree(rt, path)?;
        expect(
            rt,
            &mut real,
            Step::Look(path.as_bytes()),
            &expected,
            report,
        )?;
    }
    report.expect(trial.plan().take_lines() == 0, "a line without an error");
    report.end((NAMES.len() + MACHINE.rows.len()) as u64)
}

// The node that the tree has at a path.
fn node_in_tree(rt: &HostRuntime, path: &str) -> io::Result<Answer> {
    if has(OUT, path) {
        return Ok(Answer::Node(None));
    }
    if has(LEADING_OUT, path) {
        return node_of_link(rt, "/outside");
    }
    let key = path.trim_start_matches('/').as_bytes();
    let node = node_on_disk(rt, MACHINE.on_disk(rt, path)?.as_str(), key)?;
    Ok(Answer::Node(node))
}

fn expect<F: Folder>(
    rt: &HostRuntime,
    real: &mut F,
    step: Step<'_>,
    expected: &Answer,
    report: &mut Report<'_>,
) -> io::Result<()> {
    let answer = step.make(rt.alloc(), real, Tag(0))?;
    report.expect(is_same_answer(&answer, expected), "another result");
    Ok(())
}
