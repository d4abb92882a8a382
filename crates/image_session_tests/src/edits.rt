//! Rows of edits.
use crate::shown::shown;
use image_rows::{AUX, MANIFEST, disk_of};
use image_session::{EditFault, Session};
use lib_types::NoMemory;
use std::alloc::Global;
use table_rows::{Differences, Row, Trial, Words, divide, text};

/// A row has the texts of an image, the lines that edit it in order, the result of each line, and the image after all of them.
pub(crate) struct Edits;

// Adds the result of an edit as a line.
fn put_result(
    alloc: Global,
    results: &mut Vec<u8>,
    outcome: Result<(), EditFault>,
) -> Result<(), NoMemory> {
    match outcome {
        Ok(()) => results.extend_from_slice(b"Ok\n")?,
        Err(EditFault::NoMemory) => return Err(NoMemory),
        Err(fault) => {
            let name = format!(in alloc; "{fault:?}\n")?;
            results.extend_from_slice(name.as_bytes())?;
        }
    }
    Ok(())
}

// Edits the image by each of the lines, and returns the results.
fn edit_all(alloc: Global, image: &mut Session, lines: &[u8]) -> Result<Vec<u8>, NoMemory> {
    let mut results = Vec::new(alloc);
    let mut rest = lines;
    for _ in 0..lines.len() {
        if rest.is_empty() {
            break;
        }
        let (line, following) = divide(b'\n', rest);
        put_result(alloc, &mut results, image.edit(alloc, line))?;
        rest = following;
    }
    Ok(results)
}

const WORDS: &[Words] = &[MANIFEST, AUX, &[b"edits", b"results", b"image"]];

impl Trial for Edits {
    fn words() -> &'static [Words] {
        WORDS
    }

    // A body that always returns NoMemory meets the contract, but not the rows.
    fn is_right(
        alloc: Global,
        row: Row<'_>,
        differences: &mut Differences,
    ) -> Result<bool, NoMemory> {
        let mut disk = disk_of(alloc, row)?;
        let Ok(mut image) = Session::load(alloc, &mut disk) else {
            differences.say(b"not loaded", b"")?;
            return Ok(false);
        };
        let results = edit_all(alloc, &mut image, &text(alloc, row, b"edits")?)?;
        let same = differences.is_text(alloc, row, b"results", &results)?;
        Ok(differences.is_text(alloc, row, b"image", &shown(alloc, &image)?)? && same)
    }
}
