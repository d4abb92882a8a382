//! One row: a run of `resolve` for a directory.
use command_words::{Form, Resolve};
use elf_samples::SampleFault;
use image_rows::{
    CACHE, DISK_FAILS, FILES, LOADER, MANIFEST, STORE_FAILS, disk_of, env_of, is_made, slots_in,
    store_of, tree_of,
};
use lib_types::{NoMemory, Texts};
use root_asking::resolve_root;
use root_folder::MemFolder;
use rpath_search::Env;
use std::alloc::Global;
use table_rows::{Differences, Row, Trial, Words, calls, count, has_line, lines_in, value, values};
use tree_face::{MemDisk, MemSink};

/// A row has the tree of a directory as a manifest, the store's files, the cache, the loader's environment, the paths of the programs (or
/// that all are listed),
/// the form of the answer, and the calls that fail. It has the exit status, the output, the keys of the files that are opened, and the files that are read from the
/// disk.
pub(crate) struct Listed;

// The form that the row asks for: JSON, trees, a list whose paths end with NUL or a newline, or listings.
fn form_of(row: Row<'_>) -> Form {
    if has_line(row, b"json") {
        return Form::Json;
    }
    if has_line(row, b"tree") {
        return Form::Tree;
    }
    match value(row, b"list") {
        Some(b"NUL") => Form::Files { end: 0 },
        Some(_) => Form::Files { end: b'\n' },
        None => Form::Listing,
    }
}

// The programs that the row names, or all.
fn paths_of(alloc: Global, row: Row<'_>) -> Result<Option<Texts>, NoMemory> {
    if has_line(row, b"all") {
        return Ok(None);
    }
    Ok(Some(values(alloc, row, b"main-program")?))
}

fn asked_of(alloc: Global, row: Row<'_>) -> Result<Resolve, NoMemory> {
    let paths = paths_of(alloc, row)?;
    let Env {
        caps,
        library_path,
        platform,
        secure,
        ..
    } = env_of(alloc, row)?;
    Ok(Resolve {
        paths,
        caps,
        library_path,
        platform,
        secure,
        form: form_of(row),
    })
}

// The directory of a row, whose manifest has a line for each directory.
fn folder_of(
    alloc: Global,
    row: Row<'_>,
    differences: &mut Differences,
) -> Result<Option<MemFolder>, NoMemory> {
    let Some(tree) = tree_of(alloc, row, differences)? else {
        return Ok(None);
    };
    let folder = MemFolder::new(alloc, tree, calls(alloc, row, b"folder-fails")?);
    if folder.is_none() {
        differences.say(b"a directory without a line", b"")?;
    }
    Ok(folder)
}

fn is_unwritten(
    folder: &MemFolder,
    disk: &MemDisk,
    differences: &mut Differences,
) -> Result<bool, NoMemory> {
    let counts = folder.counts();
    let is_so = counts.links == 0 && counts.settles == 0 && disk.calls().is_empty();
    if !is_so {
        differences.say(b"a call that writes was made", b"")?;
    }
    Ok(is_so)
}

fn try_folder(
    alloc: Global,
    row: Row<'_>,
    folder: &mut MemFolder,
    differences: &mut Differences,
) -> Result<bool, SampleFault> {
    let asked = asked_of(alloc, row)?;
    let mut store = store_of(alloc, row)?;
    let mut disk = disk_of(alloc, row)?;
    let mut sink = MemSink::new(alloc, calls(alloc, row, b"out-fails")?);
    let ended = resolve_root(alloc, asked, folder, &mut store, &mut disk, &mut sink);
    let code = u64::from(ended.code());
    let keys = lines_in(alloc, store.keys())?;
    let reads = slots_in(alloc, disk.reads())?;
    Ok(
        differences.is_number(alloc, b"status", count(row, b"status"), code)?
            && differences.is_text(alloc, row, b"output", sink.written())?
            && differences.is_text(alloc, row, b"keys", &keys)?
            && differences.is_text(alloc, row, b"reads", &reads)?
            && is_unwritten(folder, &disk, differences)?,
    )
}

const WORDS: &[Words] = &[
    MANIFEST,
    FILES,
    STORE_FAILS,
    CACHE,
    DISK_FAILS,
    LOADER,
    &[
        b"folder-fails",
        b"out-fails",
        b"main-program",
        b"all",
        b"list",
        b"json",
        b"tree",
        b"status",
        b"output",
        b"keys",
        b"reads",
    ],
];

impl Trial for Listed {
    fn words() -> &'static [Words] {
        WORDS
    }

    fn is_right(
        alloc: Global,
        row: Row<'_>,
        differences: &mut Differences,
    ) -> Result<bool, NoMemory> {
        let Some(mut folder) = folder_of(alloc, row, differences)? else {
            return Ok(false);
        };
        let tried = try_folder(alloc, row, &mut folder, differences);
        is_made(tried, differences)
    }
}
