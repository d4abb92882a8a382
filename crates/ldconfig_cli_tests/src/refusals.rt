//! Arguments that are not a command, and the exit statuses.
use command_runs_fixture::{
    Devices, LIBZ_MANIFEST, OLD, Setting, has, image, libz_held, make_devices,
};
use command_status::{ScriptKind, Status};
use ldconfig_cli_fixture::run_words;
use mtree_manifest::{LineKind, ManifestFault};
use std::alloc::Global;
use std::process::Abort;
use std::test::Fail;
use tree_face::{Disk, Slot};

const WORDS: &[&[&str]] = &[
    &["frob"],
    &["update", "update"],
    &["update", "--tag", "70000"],
    &["update", "--tag", "1", "--tag", "1"],
    &["update", "--frob"],
    &["lookup"],
    &["sample", "0"],
    &["Update"],
    &["updat"],
    &["updates"],
    &[""],
];

// Devices of the example, each with its first call failing.
fn failing_devices(alloc: Global) -> Result<Devices, Fail> {
    let setting = Setting {
        store_fails: Some(0),
        disk_fails: Some(0),
        ..image(LIBZ_MANIFEST)
    };
    Ok(make_devices(alloc, setting, libz_held(alloc)?)?)
}

// Whether reading the cache file fails once, and then gives its old content.
fn fails_once(alloc: Global, devices: &mut Devices) -> bool {
    devices.disk.read(alloc, Slot::Cache).is_err()
        && has(alloc, &mut devices.disk, Slot::Cache, Some(OLD))
}

// The first call of each device still fails, so none was made before.
fn assert_untouched(rt: &impl Abort, alloc: Global, words: &[&str]) -> Result<(), Fail> {
    let mut devices = failing_devices(alloc)?;
    let status = run_words(alloc, words, &mut devices)?;
    assert!(rt; status == Status::Usage, "{words:?}");
    assert!(rt;
        devices.out.written() == b"fault: Usage\n".as_slice(),
        "{words:?}"
    );
    assert!(rt; devices.store.begun() == 0, "{words:?}");
    assert!(rt; fails_once(alloc, &mut devices), "{words:?}");
    Ok(())
}

#[test]
fn other_words_touch_nothing(rt: HostRuntime) -> Result<(), Fail> {
    for words in WORDS {
        assert_untouched(&rt, rt.alloc(), *words)?;
    }
    Ok(())
}

const CODES: &[(Status, u8)] = &[
    (Status::Done, 0),
    (Status::Usage, 2),
    (
        Status::BadManifest(ManifestFault::Bad {
            line: 1,
            kind: LineKind::BadType,
        }),
        3,
    ),
    (
        Status::BadScript {
            line: 1,
            kind: ScriptKind::NotThere,
        },
        4,
    ),
    (Status::TooMany { count: 262145 }, 9),
    (Status::StoreFault, 10),
    (Status::DiskFault, 11),
    (Status::InputFault, 12),
    (Status::OutputFault, 13),
    (Status::NoMemory, 14),
    (Status::TooLong { taken: 67108865 }, 15),
    (Status::NoManifest, 16),
    (
        Status::TooLarge {
            nodes: 1048577,
            bytes: 0,
        },
        17,
    ),
];

fn has_code(status: Status, code: u8) -> bool {
    status.code() == code
}

#[test]
fn the_exit_statuses(rt: HostRuntime) {
    for (status, code) in CODES {
        assert!(rt; has_code(*status, *code), "{code}");
    }
}
