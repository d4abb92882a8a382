//! What is on the disk, as the system itself shows it.
use device_rules::{RunId, SlotPaths};
use std::fs::{self, read_dir};
use std::io::{self, Error, ErrorKind};
use std::os::unix::fs::MetadataExt;
use tree_face::Slot;
use tree_real::FolderDisk;
use trial_devices::{Flushes, Trial};

/// The directory of the image.
pub const ROOT: &str = "image";

/// The numbers of the run.
pub const RUN: RunId = RunId {
    process: 1,
    random: 7,
};

/// The slots.
pub const SLOTS: [Slot; 3] = [Slot::Manifest, Slot::Cache, Slot::Aux];

/// The file of a slot.
pub fn file_of(slot: Slot) -> &'static str {
    match slot {
        Slot::Manifest => "image/image.mtree",
        Slot::Cache => "image/etc/ld.so.cache",
        Slot::Aux => "image/var/cache/ldconfig/aux-cache",
    }
}

/// The directories of the image on the way to a slot's file, from the image's own on.
pub fn dirs_of(slot: Slot) -> &'static [&'static str] {
    match slot {
        Slot::Manifest => &["image"],
        Slot::Cache => &["image", "image/etc"],
        Slot::Aux => &[
            "image",
            "image/var",
            "image/var/cache",
            "image/var/cache/ldconfig",
        ],
    }
}

const DIRS: &[&str] = &["image", "image/etc", "image/var/cache/ldconfig"];

/// Makes the directories of the slots' files.
pub fn make_dirs(rt: &HostRuntime) -> io::Result<()> {
    for dir in DIRS {
        fs::create_dir_all(rt, *dir)?;
    }
    Ok(())
}

/// Makes the image again, without a file.
pub fn make_image(rt: &HostRuntime) -> io::Result<()> {
    let _ = fs::remove_dir_all(rt, ROOT);
    fs::create_dir(rt, ROOT)
}

/// The disk of the image.
pub fn disk_of(trial: &Trial) -> io::Result<FolderDisk<Trial>> {
    FolderDisk::new(trial.clone()?, ROOT, RUN, SlotPaths::usual(), None).map_err(|_| Error::from(
        ErrorKind::OutOfMemory,
    ))
}

/// The bytes of a slot's file, if it can be read.
pub fn content_of(rt: &HostRuntime, slot: Slot) -> Option<Vec<u8>> {
    fs::read(rt, file_of(slot)).ok()
}

// The number of temporary files in a directory.
fn temporaries_in(rt: &HostRuntime, dir: &str) -> u64 {
    let mut count = 0u64;
    if let Ok(names) = read_dir(rt, dir) {
        for name in names {
            if name.is_ok_and(|name| name.file_name().contains(".tmp")) {
                count = count.saturating_add(1);
            }
        }
    }
    count
}

/// The number of temporary files in the image.
pub fn temporaries(rt: &HostRuntime) -> u64 {
    let mut count = 0u64;
    for dir in DIRS {
        count = count.saturating_add(temporaries_in(rt, dir));
    }
    count
}

/// One flush of each of these files that is there.
pub fn flushes_of(rt: &HostRuntime, paths: &[&str]) -> Flushes {
    let mut flushes = Flushes::NONE;
    for path in paths {
        if let Ok(found) = fs::metadata(rt, *path) {
            flushes = flushes.with(found.ino());
        }
    }
    flushes
}
