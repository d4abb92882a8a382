//! The order of directories, with their subdirectories for processors.
use hwcap_dirs::{Dirs, Places, Scope, order};
use image_rows::{MANIFEST, tree_of};
use lib_types::NoMemory;
use std::alloc::Global;
use table_rows::{Differences, Row, Trial, Words, has_line, lines_in, list, text};

/// A row has a manifest, the directories of the conf file, and the mark of a tree that is a system's root, if it is one. It has the search
/// directories, each with its written path, its real path and the name of the subdirectory if it is one. It has the directories that are
/// missing in the tree.
pub(crate) struct Order;

fn places_in(alloc: Global, places: &Places) -> Result<Vec<u8>, NoMemory> {
    let mut lines = Vec::new(alloc);
    for place in places.as_slice() {
        lines.extend_from_slice(place.spelled.as_bytes())?;
        lines.push(b' ')?;
        lines.extend_from_slice(place.real.as_bytes())?;
        if let Some(cap) = &place.cap {
            lines.push(b' ')?;
            lines.extend_from_slice(cap.as_bytes())?;
        }
        lines.push(b'\n')?;
    }
    Ok(lines)
}

fn are_found(
    alloc: Global,
    row: Row<'_>,
    found: &Dirs,
    differences: &mut Differences,
) -> Result<bool, NoMemory> {
    let places = places_in(alloc, &found.places)?;
    let absent = lines_in(alloc, &found.absent)?;
    Ok(
        differences.is_text(alloc, row, b"places", &places)?
            && differences.is_text(alloc, row, b"absent", &absent)?,
    )
}

const WORDS: &[Words] = &[MANIFEST, &[b"root", b"conf-dirs", b"places", b"absent"]];

fn scope_of(row: Row<'_>) -> Scope {
    if has_line(row, b"root") {
        Scope::Root { conf: None }
    } else {
        Scope::Image
    }
}

impl Trial for Order {
    fn words() -> &'static [Words] {
        WORDS
    }

    fn is_right(
        alloc: Global,
        row: Row<'_>,
        differences: &mut Differences,
    ) -> Result<bool, NoMemory> {
        let Some(tree) = tree_of(alloc, row, differences)? else {
            return Ok(false);
        };
        let dirs = list(alloc, b'\n', &text(alloc, row, b"conf-dirs")?)?;
        let found = order(alloc, &scope_of(row), &tree, &dirs)?;
        are_found(alloc, row, &found, differences)
    }
}
