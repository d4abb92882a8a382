// The effects of replacements on disks in memory.
ghost use Rattle.std.specs.Prelude.{◌≡◌, [], OnOk};
ghost use Rattle.atomic_replace.specs.Order.{all_calls};

use crate::{DiskFault, Progress, Updater};
use std::alloc::Global;
use std::process::Abort;
use std::test::Fail;
use tree_face::{Call, Disk, DoneCall, MemDisk, Slot, Tag};

const SLOTS: &[Slot] = &[Slot::Manifest, Slot::Cache, Slot::Aux];

const CALLS: &[Call] = &[
    Call::Create,
    Call::Append,
    Call::Sync,
    Call::Publish,
    Call::Settle,
];

// A disk whose slots have the content "old" and on which the calls with these numbers fail.
fn disk_of(alloc: Global, fail: &[u64]) -> Result<MemDisk, Fail> {
    let manifest = Some(Vec::from_slice(alloc, b"old")?);
    let cache = Some(Vec::from_slice(alloc, b"old")?);
    let aux = Some(Vec::from_slice(alloc, b"old")?);
    let fail = Vec::from_slice(alloc, fail)?;
    Ok(MemDisk::new(alloc, manifest, cache, aux, fail))
}

fn has<D: Disk>(alloc: Global, disk: &mut D, slot: Slot, want: &[u8]) -> bool {
    match disk.read(alloc, slot) {
        Ok(Some(found)) => found.as_slice() == want,
        _ => false,
    }
}

// Whether the records are the first calls of a replacement.
fn are_calls(done: &[DoneCall], tag: Tag, slot: Slot) -> bool {
    done.iter().zip(CALLS).all(|(done, call)| {
        let settles = *call == Call::Settle;
        done.call == *call && done.slot == slot && done.tag == if settles { Tag(0) } else { tag }
    })
}

// For each failing call: its number, the call, and the slot's content afterwards.
const FAULTS: &[(u64, Call, &[u8])] = &[
    (0, Call::Create, b"old"),
    (1, Call::Append, b"old"),
    (2, Call::Sync, b"old"),
    (3, Call::Publish, b"old"),
    (4, Call::Settle, b"new"),
];

fn assert_fault(
    rt: &impl Abort,
    alloc: Global,
    slot: Slot,
    number: u64,
    call: Call,
    want: &[u8],
) -> Result<(), Fail> {
    let mut disk = disk_of(alloc, &[number])?;
    let mut updater = Updater::new(Tag(7), slot, b"new");
    assert_eq!(rt; updater.commit(&mut disk), Err(DiskFault { call, slot }));
    assert!(rt; updater.next().is_none());
    assert!(rt; disk.calls().len() as u64 == number, "{call:?}");
    assert!(rt; are_calls(disk.calls(), Tag(7), slot), "{call:?}");
    for other in SLOTS {
        let want = if *other == slot { want } else { b"old" };
        assert!(rt; has(alloc, &mut disk, *other, want), "{call:?} {other:?}");
    }
    Ok(())
}

#[test]
fn a_fault_names_the_call_that_failed(rt: HostRuntime) -> Result<(), Fail> {
    let alloc = rt.alloc();
    for slot in SLOTS {
        for (number, call, want) in FAULTS {
            assert_fault(&rt, alloc, *slot, *number, *call, want)?;
        }
    }
    Ok(())
}

#[test]
fn a_slot_is_replaced(rt: HostRuntime) -> Result<(), Fail> {
    let alloc = rt.alloc();
    for slot in SLOTS {
        let mut disk = disk_of(alloc, &[])?;
        let mut updater = Updater::new(Tag(7), *slot, b"new");
        assert_eq!(rt; updater.commit(&mut disk), Ok(()));
        assert!(rt; disk.calls().len() == 5, "{slot:?}");
        assert!(rt; are_calls(disk.calls(), Tag(7), *slot), "{slot:?}");
        for other in SLOTS {
            let want = if *other == *slot { b"new" } else { b"old" };
            assert!(rt; has(alloc, &mut disk, *other, want), "{slot:?} {other:?}");
        }
    }
    Ok(())
}

// For each number of calls before a crash: the slot's content if an unsettled rename is lost, and if it is kept.
const LEFT: &[(u64, &[u8], &[u8])] = &[
    (0, b"old", b"old"),
    (1, b"old", b"old"),
    (2, b"old", b"old"),
    (3, b"old", b"old"),
    (4, b"old", b"new"),
    (5, b"new", b"new"),
];

// The slot's bit in the number that selects an image.
fn bit_of(slot: Slot) -> u8 {
    match slot {
        Slot::Manifest => 1,
        Slot::Cache => 2,
        Slot::Aux => 4,
    }
}

// Asserts that this slot of the image has these bytes, and that the others have their old content.
fn assert_image(
    rt: &impl Abort,
    alloc: Global,
    mut image: MemDisk,
    slot: Slot,
    want: &[u8],
) -> Result<(), Fail> {
    for other in SLOTS {
        let want = if *other == slot { want } else { b"old" };
        assert!(rt; has(alloc, &mut image, *other, want), "{other:?}");
    }
    Ok(())
}

fn assert_stop(
    rt: &impl Abort,
    alloc: Global,
    slot: Slot,
    left: (u64, &[u8], &[u8]),
) -> Result<(), Fail> {
    let (calls, undone, done) = left;
    let mut disk = disk_of(alloc, &[])?;
    disk.stop_after(calls);
    let mut updater = Updater::new(Tag(7), slot, b"new");
    assert!(rt;
        updater.commit(&mut disk).is_ok() == (calls == 5),
        "{calls}"
    );
    for choice in 0u8..8 {
        let want = if choice & bit_of(slot) == 0 {
            undone
        } else {
            done
        };
        assert_image(rt, alloc, disk.image(alloc, choice)?, slot, want)?;
    }
    Ok(())
}

#[test]
fn a_stop_leaves_the_old_content_or_the_new(rt: HostRuntime) -> Result<(), Fail> {
    let alloc = rt.alloc();
    for slot in SLOTS {
        for left in LEFT {
            assert_stop(&rt, alloc, *slot, *left)?;
        }
    }
    Ok(())
}

// Makes the steps of a replacement. Returns the next call before each step and after the last.
fn make_steps<D: Disk>(
    updater: &mut Updater<'_>,
    disk: &mut D,
) -> Result<[Option<Call>; 6], DiskFault>
    requires { updater.old.left ≡ all_calls }
    ensures { OnOk result (updater.new.left ≡ []) }
{
    let mut calls = [updater.next(), None, None, None, None, None];
    let _ = updater.step(disk)?;
    calls[1] = updater.next();
    let _ = updater.step(disk)?;
    calls[2] = updater.next();
    let _ = updater.step(disk)?;
    calls[3] = updater.next();
    let _ = updater.step(disk)?;
    calls[4] = updater.next();
    let _ = updater.step(disk)?;
    calls[5] = updater.next();
    Ok(calls)
}

const STEPS: [Option<Call>; 6] = [
    Some(Call::Create),
    Some(Call::Append),
    Some(Call::Sync),
    Some(Call::Publish),
    Some(Call::Settle),
    None,
];

#[test]
fn steps_are_made_one_by_one(rt: HostRuntime) -> Result<(), Fail> {
    let alloc = rt.alloc();
    let mut disk = disk_of(alloc, &[])?;
    let mut updater = Updater::new(Tag(7), Slot::Cache, b"new");
    assert_eq!(rt; make_steps(&mut updater, &mut disk)?, STEPS);
    assert_eq!(rt; updater.step(&mut disk), Ok(false));
    assert!(rt; disk.calls().len() == 5);
    assert!(rt; are_calls(disk.calls(), Tag(7), Slot::Cache));
    assert!(rt; has(alloc, &mut disk, Slot::Cache, b"new"));
    Ok(())
}

#[test]
fn calls_come_in_their_order(rt: HostRuntime) -> Result<(), Fail> {
    let mut progress = Progress::new();
    for call in CALLS {
        assert_eq!(rt; progress.next(), Some(*call));
        progress.advance(true);
    }
    assert_eq!(rt; progress.next(), None);
    progress.advance(true);
    assert_eq!(rt; progress.next(), None);
    Ok(())
}

#[test]
fn nothing_is_left_after_a_fault(rt: HostRuntime) -> Result<(), Fail> {
    let mut progress = Progress::new();
    progress.advance(true);
    progress.advance(false);
    assert_eq!(rt; progress.next(), None);
    progress.advance(true);
    assert_eq!(rt; progress.next(), None);
    Ok(())
}
