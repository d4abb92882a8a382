//! A machine that stops at each writing call of a script of two updates, and the script of each image that may be left.
use crate::script::{CALLS, SLOTS, UPDATES, content, contents, devices_of, is_after, sure};
use command_runs::Status;
use command_runs_fixture::{has, run_script};
use std::alloc::Global;
use std::process::Abort;
use std::test::Fail;
use tree_face::{MemDisk, Slot};

// The content that a crash after this number of writing calls leaves in a slot's file. If the file is renamed into place but its directory
// isn't flushed, `chosen` decides between the old content and the new one.
fn left(slot: Slot, calls: u64, chosen: bool) -> Option<&'static [u8]> {
    if calls == 0 {
        return content(slot, 0);
    }
    let (old, new) = contents(slot, calls.saturating_sub(1));
    if chosen { new } else { old }
}

fn is_image(alloc: Global, image: &mut MemDisk, calls: u64, choice: u8) -> bool {
    let mut is_so = true;
    for (slot, bit) in SLOTS {
        is_so = is_so && has(alloc, image, *slot, left(*slot, calls, choice & *bit != 0));
    }
    is_so
}

// Run again, the same script leaves what an undisturbed run leaves.
fn assert_repaired(rt: &impl Abort, alloc: Global, image: MemDisk, calls: u64) -> Result<(), Fail> {
    let mut devices = devices_of(alloc, sure())?;
    devices.disk = image;
    let status = run_script(alloc, &mut devices);
    assert!(rt; status == Status::Done, "after {calls}");
    assert!(rt;
        is_after(alloc, &mut devices.disk, UPDATES),
        "after {calls}"
    );
    Ok(())
}

// Stops the script after this number of writing calls, and checks each image that a crash may then leave.
fn assert_stopped(rt: &impl Abort, alloc: Global, calls: u64) -> Result<(), Fail> {
    let mut devices = devices_of(alloc, sure())?;
    devices.disk.stop_after(calls);
    let _ = run_script(alloc, &mut devices);
    assert!(rt; devices.disk.calls().len() as u64 == calls);
    for choice in 0..8 {
        let mut image = devices.disk.image(alloc, choice)?;
        assert!(rt;
            is_image(alloc, &mut image, calls, choice),
            "after {calls}, {choice}"
        );
        assert_repaired(rt, alloc, image, calls)?;
    }
    Ok(())
}

#[test]
fn each_slot_is_of_an_update_in_order(rt: HostRuntime) -> Result<(), Fail> {
    for calls in 0..CALLS.saturating_mul(UPDATES).saturating_add(1) {
        assert_stopped(&rt, rt.alloc(), calls)?;
    }
    Ok(())
}
