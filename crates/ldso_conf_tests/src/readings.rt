//! Reading conf files.
use elf_samples::SampleFault;
use image_rows::{FILES, MANIFEST, STORE_FAILS, is_made, store_of, tree_of};
use ldso_conf::{CONF_PATH, Conf, ConfFault, ConfKind, ConfReports, read_conf};
use lib_types::NoMemory;
use std::alloc::Global;
use table_rows::{Differences, Row, Trial, Words, count, has_line, lines_in, value};
use tree_face::{MemStore, Tree};

/// A row has a manifest and the store's files. It has the directories, the reports and the number of conf files that are read, or the
/// fault. It may have the keys of the files that are opened, which are then compared.
pub(crate) struct Readings;

fn word_of(kind: ConfKind) -> &'static [u8] {
    match kind {
        ConfKind::NotFile => b": NotFile\n",
        ConfKind::Repeated => b": Repeated\n",
        ConfKind::TooDeep => b": TooDeep\n",
        ConfKind::TooLarge => b": TooLarge\n",
        ConfKind::Relative => b": Relative\n",
        ConfKind::Equals => b": Equals\n",
        ConfKind::Hwcap => b": Hwcap\n",
        ConfKind::LongPath => b": LongPath\n",
    }
}

fn reports_in(alloc: Global, reports: &ConfReports) -> Result<Vec<u8>, NoMemory> {
    let mut lines = Vec::new(alloc);
    for report in reports.as_slice() {
        lines.extend_from_slice(report.place.as_bytes())?;
        lines.extend_from_slice(word_of(report.kind))?;
    }
    Ok(lines)
}

fn is_read(
    alloc: Global,
    row: Row<'_>,
    conf: &Conf,
    opened: u64,
    differences: &mut Differences,
) -> Result<bool, NoMemory> {
    let files = count(row, b"files");
    let dirs = lines_in(alloc, &conf.dirs)?;
    let reports = reports_in(alloc, &conf.reports)?;
    Ok(
        differences.is_number(alloc, b"files", files, u64::from(conf.files))?
            && differences.is_number(alloc, b"opened", files, opened)?
            && differences.is_text(alloc, row, b"dirs", &dirs)?
            && differences.is_text(alloc, row, b"reports", &reports)?,
    )
}

fn is_answer(
    alloc: Global,
    row: Row<'_>,
    read: Result<Conf, ConfFault>,
    opened: u64,
    differences: &mut Differences,
) -> Result<bool, NoMemory> {
    let fault = value(row, b"fault").unwrap_or(b"");
    match read {
        Ok(conf) => Ok(
            differences.is_same(b"fault", fault, b"")?
                && is_read(alloc, row, &conf, opened, differences)?,
        ),
        Err(ConfFault::StoreFault) => differences.is_same(b"fault", fault, b"StoreFault"),
        Err(ConfFault::NoMemory) => Err(NoMemory),
    }
}

// Whether the keys of the opened files are the row's, if it has any.
fn are_opened(
    alloc: Global,
    row: Row<'_>,
    store: &MemStore,
    differences: &mut Differences,
) -> Result<bool, NoMemory> {
    if !has_line(row, b"keys") {
        return Ok(true);
    }
    differences.is_text(alloc, row, b"keys", &lines_in(alloc, store.keys())?)
}

fn try_row(
    alloc: Global,
    row: Row<'_>,
    tree: &Tree,
    differences: &mut Differences,
) -> Result<bool, SampleFault> {
    let mut store = store_of(alloc, row)?;
    let read = read_conf(alloc, CONF_PATH, tree, &mut store);
    Ok(
        is_answer(alloc, row, read, store.begun(), differences)?
            && are_opened(alloc, row, &store, differences)?,
    )
}

const WORDS: &[Words] = &[
    MANIFEST,
    FILES,
    STORE_FAILS,
    &[b"dirs", b"reports", b"files", b"fault", b"keys"],
];

impl Trial for Readings {
    fn words() -> &'static [Words] {
        WORDS
    }

    fn is_right(
        alloc: Global,
        row: Row<'_>,
        differences: &mut Differences,
    ) -> Result<bool, NoMemory> {
        let Some(tree) = tree_of(alloc, row, differences)? else {
            return Ok(false);
        };
        let tried = try_row(alloc, row, &tree, differences);
        is_made(tried, differences)
    }
}
