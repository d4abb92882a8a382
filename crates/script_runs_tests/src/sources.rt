//! A source that fails at each of its calls.
use crate::script::{SCRIPT, devices_of, is_after, sure};
use command_runs::Status;
use command_runs_fixture::{Devices, number, run_script};
use std::alloc::Global;
use std::process::Abort;
use std::test::Fail;
use tree_face::MemSource;

// Nothing is done: no slot is read, no file is opened, and only the fault line is written.
fn assert_nothing_done(
    rt: &impl Abort,
    alloc: Global,
    devices: &mut Devices,
    call: u64,
) -> Result<(), Fail> {
    let status = run_script(alloc, devices);
    assert!(rt; status == Status::InputFault, "call {call}");
    assert!(rt;
        devices.out.written() == b"fault: InputFault\n".as_slice(),
        "call {call}"
    );
    assert!(rt; devices.disk.reads().is_empty(), "call {call}");
    assert!(rt; devices.disk.calls().is_empty(), "call {call}");
    assert!(rt; devices.store.begun() == 0, "call {call}");
    assert!(rt; is_after(alloc, &mut devices.disk, 0), "call {call}");
    Ok(())
}

fn assert_source_fault(
    rt: &impl Abort,
    alloc: Global,
    script: &[u8],
    call: u64,
) -> Result<(), Fail> {
    let mut devices = devices_of(alloc, sure())?;
    let script = Vec::from_slice(alloc, script)?;
    devices.input = MemSource::new(script, number(alloc, Some(call))?);
    assert_nothing_done(rt, alloc, &mut devices, call)
}

// One call returns the script, and one its end.
#[test]
fn the_source_fails(rt: HostRuntime) -> Result<(), Fail> {
    for call in 0..2 {
        assert_source_fault(&rt, rt.alloc(), SCRIPT, call)?;
    }
    Ok(())
}

// The script, and lines that are ignored.
fn long_script(alloc: Global) -> Result<Vec<u8>, Fail> {
    let mut script = Vec::from_slice(alloc, SCRIPT)?;
    for _ in 0..1000 {
        script.extend_from_slice(b"# nothing\n")?;
    }
    Ok(script)
}

// A script of 10,181 bytes takes three calls, and its end takes one.
#[test]
fn the_source_fails_in_the_middle(rt: HostRuntime) -> Result<(), Fail> {
    let alloc = rt.alloc();
    let script = long_script(alloc)?;
    for call in 0..4 {
        assert_source_fault(&rt, alloc, &script, call)?;
    }
    let mut devices = devices_of(alloc, sure())?;
    devices.input = MemSource::new(script, number(alloc, Some(4))?);
    let status = run_script(alloc, &mut devices);
    assert!(rt; status == Status::Done);
    assert!(rt; is_after(alloc, &mut devices.disk, 2));
    Ok(())
}
