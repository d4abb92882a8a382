//! Rows of images that are loaded.
use crate::shown::shown;
use image_rows::{AUX, CACHE, DISK_FAILS, MANIFEST, disk_of, slots_in};
use image_session::{LoadFault, Session};
use lib_types::NoMemory;
use std::alloc::Global;
use table_rows::{Differences, Row, Trial, Words, has_line};

/// A row has the files of a disk, if there are any, and the image that is loaded, or the fault. It has the files that are read, unless a
/// reading fails. The file of a failed reading may be among them or not.
pub(crate) struct Loads;

// The image, or the fault and a line feed.
fn outcome(alloc: Global, loaded: Result<Session, LoadFault>) -> Result<Vec<u8>, NoMemory> {
    match loaded {
        Ok(image) => shown(alloc, &image),
        Err(LoadFault::NoMemory) => Err(NoMemory),
        Err(fault) => {
            let name = format!(in alloc; "{fault:?}\n")?;
            Ok(Vec::from_slice(alloc, name.as_bytes())?)
        }
    }
}

const WORDS: &[Words] = &[MANIFEST, CACHE, AUX, DISK_FAILS, &[b"image", b"reads"]];

impl Trial for Loads {
    fn words() -> &'static [Words] {
        WORDS
    }

    // A body that always returns NoMemory meets the contract, but not the rows.
    fn is_right(
        alloc: Global,
        row: Row<'_>,
        differences: &mut Differences,
    ) -> Result<bool, NoMemory> {
        let mut disk = disk_of(alloc, row)?;
        let image = outcome(alloc, Session::load(alloc, &mut disk))?;
        let reads = slots_in(alloc, disk.reads())?;
        let same = differences.is_text(alloc, row, b"image", &image)?;
        if !has_line(row, b"reads") {
            return Ok(same);
        }
        Ok(differences.is_text(alloc, row, b"reads", &reads)? && same)
    }
}
