//! The tree of a row.
use lib_types::NoMemory;
use mtree_manifest::read;
use std::alloc::Global;
use table_rows::{Differences, Row, Words, text};
use tree_face::Tree;

/// The word of the manifest, which has its text below it.
pub const MANIFEST: Words = &[b"manifest"];

/// The tree of a row's manifest.
pub fn tree_of(
    alloc: Global,
    row: Row<'_>,
    differences: &mut Differences,
) -> Result<Option<Tree>, NoMemory> {
    let manifest = text(alloc, row, b"manifest")?;
    match read(alloc, &manifest) {
        Ok(tree) => Ok(Some(tree)),
        Err(_) => {
            differences.say(b"a bad manifest", b"")?;
            Ok(None)
        }
    }
}
