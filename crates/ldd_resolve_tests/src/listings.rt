//! The listing of a program.
use cache_lookup::{Sorted, sorted};
use cache_reader::CacheView;
use elf_samples::SampleFault;
use image_rows::{
    CACHE, FILES, LOADER, MANIFEST, STORE_FAILS, cache_in, env_of, is_made, store_of, tree_of,
};
use ldd_resolve::{ResolveFault, Scope, listing_text, scope};
use lib_types::{Defect, NoMemory};
use std::alloc::Global;
use table_rows::{Differences, Row, Trial, Words, has_line, lines_in, value};
use tree_face::Tree;

/// A row has an image, its cache and the loader's environment, the path of the program (`at`), the text of the listing or the fault, the
/// paths by which files were found, and the keys of the files that are opened.
pub(crate) struct Listings;

fn fault_text(fault: ResolveFault) -> &'static [u8] {
    match fault {
        ResolveFault::NoProgram => b"NoProgram",
        ResolveFault::BadProgram(Defect::NotElf) => b"BadProgram NotElf",
        ResolveFault::BadProgram(_) => b"BadProgram",
        ResolveFault::StoreFault => b"StoreFault",
        ResolveFault::NoMemory => b"NoMemory",
    }
}

// The paths are compared only if the row has them.
fn are_found(
    alloc: Global,
    row: Row<'_>,
    scope: &Scope,
    differences: &mut Differences,
) -> Result<bool, NoMemory> {
    if !has_line(row, b"found") {
        return Ok(true);
    }
    differences.is_text(alloc, row, b"found", &lines_in(alloc, &scope.found)?)
}

fn is_listed(
    alloc: Global,
    row: Row<'_>,
    resolved: Result<Scope, ResolveFault>,
    differences: &mut Differences,
) -> Result<bool, NoMemory> {
    match resolved {
        Ok(scope) => {
            let listing = listing_text(alloc, &scope.listing)?;
            Ok(
                differences.is_text(alloc, row, b"listing", &listing)?
                    && are_found(alloc, row, &scope, differences)?,
            )
        }
        Err(fault) => {
            let want = value(row, b"fault").unwrap_or(b"");
            differences.is_same(b"fault", want, fault_text(fault))
        }
    }
}

fn try_row(
    alloc: Global,
    row: Row<'_>,
    tree: &Tree,
    cache: Option<&Sorted<'_>>,
    differences: &mut Differences,
) -> Result<bool, SampleFault> {
    let env = env_of(alloc, row)?;
    let mut store = store_of(alloc, row)?;
    let program = value(row, b"main-program").unwrap_or(b"");
    let resolved = scope(alloc, tree, &mut store, cache, program, &env);
    let keys = lines_in(alloc, store.keys())?;
    Ok(
        is_listed(alloc, row, resolved, differences)?
            && differences.is_text(alloc, row, b"keys", &keys)?,
    )
}

// With the cache of the row, if it has one.
fn try_cached(
    alloc: Global,
    row: Row<'_>,
    tree: &Tree,
    differences: &mut Differences,
) -> Result<bool, SampleFault> {
    let Some(bytes) = cache_in(alloc, row)? else {
        return try_row(alloc, row, tree, None, differences);
    };
    let Ok(view) = CacheView::parse(&bytes) else {
        differences.say(b"no cache", b"")?;
        return Ok(false);
    };
    match sorted(view) {
        Ok(cache) => try_row(alloc, row, tree, Some(&cache), differences),
        Err(_) => {
            differences.say(b"the names rise", b"")?;
            Ok(false)
        }
    }
}

const WORDS: &[Words] = &[
    MANIFEST,
    FILES,
    STORE_FAILS,
    CACHE,
    LOADER,
    &[b"main-program", b"listing", b"found", b"fault", b"keys"],
];

impl Trial for Listings {
    fn words() -> &'static [Words] {
        WORDS
    }

    fn is_right(
        alloc: Global,
        row: Row<'_>,
        differences: &mut Differences,
    ) -> Result<bool, NoMemory> {
        let Some(tree) = tree_of(alloc, row, differences)? else {
            return Ok(false);
        };
        let tried = try_cached(alloc, row, &tree, differences);
        is_made(tried, differences)
    }
}
