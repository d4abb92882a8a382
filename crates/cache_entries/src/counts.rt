//! The numbers of winners of search directories.
ghost use Rattle.std.specs.Prelude.{◌≡◌, IfOk, length};
ghost use Rattle.file_table.specs.Table.{analysis_at};
ghost use Rattle.cache_entries.specs.Counts.{CountsEach};

use crate::winners::{Winners, winners_in};
use file_table::Table;
use indexmap::IndexMap;
use lib_types::{NoMemory, Text, TextRef};
use library_files::FolderLinks;
use place_libraries::BestLibraries;
use std::alloc::Global;

// The number of these winners.
fn count_of(winners: &Winners<'_>) -> Result<usize, NoMemory>
    ensures { IfOk result (λ count. count ≡ length winners.now) }
{
    let mut count: usize = 0;
    for _winner in winners.iter() {
        count = count.checked_add(1).ok_or(NoMemory)?;
    }
    Ok(count)
}

/// The number of winners of a search directory, from its links and the best library of each soname. It is computed once for each
/// directory
/// and then cached.
pub(crate) fn count_in(
    alloc: Global,
    table: &Table,
    files: &BestLibraries,
    links: &FolderLinks,
    counts: &mut IndexMap<Text, usize>,
) -> Result<usize, NoMemory>
    ensures { IfOk result (λ count. CountsEach (analysis_at table.now) files.now links.now counts.old.entries count counts.new.entries) }
{
    if let Some(count) = counts.get(TextRef {
        bytes: links.folder.as_bytes(),
    }) {
        return Ok(*count);
    }
    let winners = winners_in(alloc, table, files, links)?;
    let folder = Text::copy_of(alloc, links.folder.as_bytes())?;
    let count = count_of(&winners)?;
    counts.insert(folder, count)?;
    Ok(count)
}
