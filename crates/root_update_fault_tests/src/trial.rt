//! One row: a directory, and its updates that fail or crash.
use crate::crashes::are_crashes_repaired;
use crate::turns::are_turns_repaired;
use elf_samples::SampleFault;
use image_rows::{AUX, FILES, MANIFEST, is_made};
use lib_types::NoMemory;
use root_update_fixture::RUN;
use std::alloc::Global;
use table_rows::{Differences, Row, Trial, Words};

/// A row describes a directory: its nodes, its files, the existing caches, and the options of the run. It has the number of calls that read
/// the directory and the store, the writing calls in the directory, and the bytes of the cache and the records of the auxiliary cache
/// afterwards. Each call fails in turn, and the machine stops after each writing call.
pub(crate) struct Failures;

const WORDS: &[Words] = &[
    MANIFEST,
    FILES,
    AUX,
    RUN,
    &[b"in-turn", b"made", b"new-cache", b"new-records"],
];

fn try_row(
    alloc: Global,
    row: Row<'_>,
    differences: &mut Differences,
) -> Result<bool, SampleFault> {
    Ok(
        are_turns_repaired(alloc, row, differences)?
            && are_crashes_repaired(alloc, row, differences)?,
    )
}

impl Trial for Failures {
    fn words() -> &'static [Words] {
        WORDS
    }

    fn is_right(
        alloc: Global,
        row: Row<'_>,
        differences: &mut Differences,
    ) -> Result<bool, NoMemory> {
        let tried = try_row(alloc, row, differences);
        is_made(tried, differences)
    }
}
