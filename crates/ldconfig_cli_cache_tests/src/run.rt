//! A run of a command that reads only the cache.
use command_runs::Status;
use command_runs_fixture::{ONE_CACHE, Setting, image, make_devices};
use ldconfig_cli_fixture::run_words;
use std::alloc::Global;
use std::process::Abort;
use std::test::Fail;

/// A disk with only this cache. No device fails.
pub(crate) fn disk_with(cache: Option<&[u8]>) -> Setting<'_> {
    Setting {
        manifest: None,
        cache,
        ..image(b"")
    }
}

/// Runs the command, and compares the status and the output. The command may not open a file in the store or write to the disk.
pub(crate) fn assert_run(
    rt: &impl Abort,
    alloc: Global,
    setting: Setting<'_>,
    arguments: &[&str],
    status: Status,
    written: &[u8],
) -> Result<(), Fail> {
    let mut devices = make_devices(alloc, setting, Vec::new(alloc))?;
    let ended = run_words(alloc, arguments, &mut devices)?;
    assert!(rt; ended == status);
    assert!(rt; devices.out.written() == written);
    assert!(rt; devices.store.begun() == 0);
    assert!(rt; devices.disk.calls().is_empty());
    Ok(())
}

/// Runs the command on a disk whose first call fails, and with a sink whose first call fails.
pub(crate) fn assert_faults(
    rt: &impl Abort,
    alloc: Global,
    arguments: &[&str],
) -> Result<(), Fail> {
    let disk_fails = Setting {
        disk_fails: Some(0),
        ..disk_with(Some(ONE_CACHE))
    };
    let line = b"fault: DiskFault\n";
    assert_run(rt, alloc, disk_fails, arguments, Status::DiskFault, line)?;
    let out_fails = Setting {
        out_fails: Some(0),
        ..disk_with(Some(ONE_CACHE))
    };
    assert_run(rt, alloc, out_fails, arguments, Status::OutputFault, b"")
}
