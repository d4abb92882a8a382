//! Several updaters at one disk: each has its own temporary files.
use command_runs::{Status, run_command};
use command_runs_fixture::{LIBZ_MANIFEST, ONE_CACHE, has, image, libz_held, make_devices};
use command_words::Command;
use std::alloc::Global;
use std::test::Fail;
use tree_face::{Devices, Disk, Slot, Tag};

fn is(found: &Option<Vec<u8>>, want: &[u8]) -> bool {
    match found {
        Some(bytes) => bytes.as_slice() == want,
        None => false,
    }
}

// Whether an update succeeds if it runs between two calls of another, and both caches are written.
fn are_both_written(alloc: Global) -> Result<bool, Fail> {
    let devices = make_devices(alloc, image(LIBZ_MANIFEST), libz_held(alloc)?)?;
    let mut store = devices.store;
    let mut disk = devices.disk;
    let mut input = devices.input;
    let mut out = devices.out;
    disk.create(Tag(1), Slot::Cache)?;
    disk.append(Tag(1), Slot::Cache, b"other")?;
    let own = Command::Update { tag: Tag(0) };
    let status = run_command(
        alloc,
        own,
        Devices {
            store: &mut store,
            disk: &mut disk,
            source: &mut input,
            sink: &mut out,
        },
    );
    let made = disk.read(alloc, Slot::Cache)?;
    let is_own = is(&made, ONE_CACHE);
    disk.publish(Tag(1), Slot::Cache)?;
    let is_other = has(alloc, &mut disk, Slot::Cache, Some(b"other"));
    Ok(status == Status::Done && is_own && is_other)
}

#[test]
fn an_update_between_two_calls_of_another(rt: HostRuntime) -> Result<(), Fail> {
    assert!(rt; are_both_written(rt.alloc())?);
    Ok(())
}
