//! The file that is taken.
use elf_samples::SampleFault;
use image_rows::{FILES, MANIFEST, STORE_FAILS, is_made, store_of, tree_of};
use lib_types::{Abi, NoMemory};
use rpath_search::{Found, SearchFault, find};
use std::alloc::Global;
use table_rows::{Differences, Row, Trial, Words, lines_in, list, text, value};
use tree_face::Tree;

/// A row has a manifest and the store's files, and the paths as text. It has the path that is taken with the file to which it leads
/// (`found`, `-` for none), or the fault. It has the keys of the files that are opened. The ABI is x86-64.
pub(crate) struct Finds;

// `PATH FILE`
fn line_of(alloc: Global, found: &Found) -> Result<Vec<u8>, NoMemory> {
    let mut line = Vec::new(alloc);
    line.extend_from_slice(found.path.as_bytes())?;
    line.push(b' ')?;
    line.extend_from_slice(found.real.as_bytes())?;
    Ok(line)
}

fn is_answer(
    alloc: Global,
    row: Row<'_>,
    search: Result<Option<Found>, SearchFault>,
    differences: &mut Differences,
) -> Result<bool, NoMemory> {
    let found = value(row, b"found").unwrap_or(b"");
    let fault = value(row, b"fault").unwrap_or(b"");
    match search {
        Ok(Some(place)) => differences.is_same(b"found", found, &line_of(alloc, &place)?),
        Ok(None) => differences.is_same(b"found", found, b"-"),
        Err(SearchFault::StoreFault) => differences.is_same(b"fault", fault, b"StoreFault"),
        Err(SearchFault::NoMemory) => Err(NoMemory),
    }
}

fn is_found(
    alloc: Global,
    row: Row<'_>,
    tree: &Tree,
    differences: &mut Differences,
) -> Result<bool, SampleFault> {
    let paths = list(alloc, b'\n', &text(alloc, row, b"to-try")?)?;
    let mut store = store_of(alloc, row)?;
    let search = find(alloc, tree, &mut store, &paths, Abi::X86_64);
    let keys = lines_in(alloc, store.keys())?;
    Ok(
        is_answer(alloc, row, search, differences)?
            && differences.is_text(alloc, row, b"keys", &keys)?,
    )
}

const WORDS: &[Words] = &[
    MANIFEST,
    FILES,
    STORE_FAILS,
    &[b"to-try", b"found", b"fault", b"keys"],
];

impl Trial for Finds {
    fn words() -> &'static [Words] {
        WORDS
    }

    fn is_right(
        alloc: Global,
        row: Row<'_>,
        differences: &mut Differences,
    ) -> Result<bool, NoMemory> {
        let Some(tree) = tree_of(alloc, row, differences)? else {
            return Ok(false);
        };
        let tried = is_found(alloc, row, &tree, differences);
        is_made(tried, differences)
    }
}
