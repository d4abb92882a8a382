//! The same layers again.
use crate::stack::{Layer, SURE, devices_of, run, text};
use command_runs_fixture::{Devices, has};
use command_status::Status;
use std::alloc::Global;
use std::process::Abort;
use std::test::Fail;
use tree_face::{Disk, Slot};

// The upper layer has another library in the lower one's place, whose soname needs a link. Both files have identities.
const LAYERS: &[Layer] = &[
    (
        "base",
        "./usr/lib/liba.so.1 type=file inode=5 ctime=1 size=251 contents=a\n",
    ),
    (
        "top",
        "./usr/lib/liba.so.1 type=file inode=5 ctime=2 size=251 contents=b\n",
    ),
];

const MANIFEST: &str =
    "./usr/lib/liba.so.1 type=file dev=0 inode=5 ctime=2 size=251 contents=b\n./usr/lib/libb.so.1 type=link link=liba.so.1\n";

const REPORTS: &[u8] = b"\
    link: /usr/lib/libb.so.1 -> liba.so.1\n1 libs, 1 links, 1 files opened\n\
    link: /usr/lib/libb.so.1 -> liba.so.1\n1 libs, 1 links, 0 files opened\n";

const SLOTS: [Slot; 3] = [Slot::Manifest, Slot::Cache, Slot::Aux];

// The contents of a slot's file.
fn content(alloc: Global, devices: &mut Devices, slot: Slot) -> Option<Vec<u8>> {
    devices.disk.read(alloc, slot).ok().flatten()
}

// The second run plans the same links, because no layer has them, writes the same bytes and opens no library.
#[test]
fn the_same_layers_again(rt: HostRuntime) -> Result<(), Fail> {
    let alloc = rt.alloc();
    let mut devices = devices_of(alloc, LAYERS, SURE)?;
    assert!(rt; run(alloc, LAYERS, &mut devices)? == Status::Done);
    let manifest = text(alloc, MANIFEST)?;
    assert!(rt;
        has(
            alloc,
            &mut devices.disk,
            Slot::Manifest,
            Some(manifest.as_slice())
        )
    );
    let mut first = devices_of(alloc, LAYERS, SURE)?;
    assert!(rt; run(alloc, LAYERS, &mut first)? == Status::Done);
    assert!(rt; run(alloc, LAYERS, &mut devices)? == Status::Done);
    assert!(rt; devices.out.written() == REPORTS);
    for slot in SLOTS {
        let old = content(alloc, &mut first, slot);
        let new = content(alloc, &mut devices, slot);
        assert!(rt; old.is_some() && old == new);
    }
    Ok(())
}
