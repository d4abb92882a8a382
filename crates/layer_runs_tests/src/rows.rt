//! Layers, and what the command makes of them.
use crate::stack::{Layer, SURE, devices_of, run, text};
use command_status::{LayerKind, Status};
use mtree_manifest::{LineKind, ManifestFault};
use std::alloc::Global;
use std::process::Abort;
use std::test::Fail;
use tree_face::{Disk, Slot};

// Layers, the lowest first: their keys with their manifests, without the first line. The status, the output, and the manifest without its
// first line, if one is written.
struct Row {
    layers: &'static [Layer],
    status: Status,
    out: &'static str,
    manifest: Option<&'static str>,
}

const BASE: Layer = (
    "base",
    "./usr/lib/liba.so.1 type=file contents=a\n./usr/lib/libz.so.1 type=file contents=z\n",
);

const OF_BASE: &str =
    "./usr/lib/liba.so.1 type=file contents=a\n./usr/lib/libz.so.1 type=file contents=z\n";

const TOP_B: &str = "./usr/lib/libb.so.1 type=file contents=b\n";

const ROWS: &[Row] = &[
    Row {
        layers: &[
            BASE,
            (
                "top",
                "./usr/lib/.wh.liba.so.1 type=file\n./usr/lib/libb.so.1 type=file contents=b\n",
            ),
        ],
        status: Status::Done,
        out: "2 libs, 0 links, 2 files opened\n",
        manifest: Some(
            "./usr/lib/libb.so.1 type=file contents=b\n./usr/lib/libz.so.1 type=file contents=z\n",
        ),
    },
    Row {
        layers: &[
            BASE,
            (
                "top",
                "./usr/lib/.wh..wh..opq type=file\n./usr/lib/libb.so.1 type=file contents=b\n",
            ),
        ],
        status: Status::Done,
        out: "1 libs, 0 links, 1 files opened\n",
        manifest: Some(TOP_B),
    },
    Row {
        layers: &[
            BASE,
            (
                "top",
                "./usr/lib/.wh. type=file\n./usr/lib/libb.so.1 type=file contents=b\n",
            ),
        ],
        status: Status::BadLayer {
            layer: 1,
            kind: LayerKind::Whiteout { node: 0 },
        },
        out: "fault: BadLayer 1: Whiteout\n",
        manifest: None,
    },
    // the text of an upper layer is tried before the whiteouts of a lower one
    Row {
        layers: &[("base", "./.wh. type=file\n"), ("top", "./a type=pear\n")],
        status: Status::BadLayer {
            layer: 1,
            kind: LayerKind::Manifest(ManifestFault::Bad {
                line: 2,
                kind: LineKind::BadType,
            }),
        },
        out: "fault: BadLayer 1: Manifest\n",
        manifest: None,
    },
    Row {
        layers: &[BASE],
        status: Status::Done,
        out: "2 libs, 0 links, 2 files opened\n",
        manifest: Some(OF_BASE),
    },
    // a layer twice
    Row {
        layers: &[BASE, BASE],
        status: Status::Done,
        out: "2 libs, 0 links, 2 files opened\n",
        manifest: Some(OF_BASE),
    },
];

fn assert_row(rt: &impl Abort, alloc: Global, row: &Row) -> Result<(), Fail> {
    let mut devices = devices_of(alloc, row.layers, SURE)?;
    let status = run(alloc, row.layers, &mut devices)?;
    assert!(rt; status == row.status, "{}", row.out);
    assert!(rt; devices.out.written() == row.out.as_bytes(), "{}", row.out);
    let manifest = devices.disk.read(alloc, Slot::Manifest).ok().flatten();
    match row.manifest {
        Some(lines) => {
            let want = text(alloc, lines)?;
            assert!(rt; manifest.is_some_and(|found| found.as_slice() == want.as_slice()));
        }
        None => assert!(rt; manifest.is_none()),
    }
    Ok(())
}

#[test]
fn layers_give_these_images(rt: HostRuntime) -> Result<(), Fail> {
    let alloc = rt.alloc();
    for row in ROWS {
        assert_row(&rt, alloc, row)?;
    }
    Ok(())
}
