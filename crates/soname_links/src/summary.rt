//! The best libraries of each directory, and its sonames with different ABIs.
ghost use Rattle.std.specs.Prelude.{◌≡◌, ◌∷◌, [], ◌++◌, IfOk, OnOk, map};
ghost use Rattle.std.specs.List.{filter_map};
ghost use Rattle.place_libraries.specs.Best.{bests, bests_of};
ghost use Rattle.place_libraries.specs.Rows.{AreOfPlaces};
ghost use Rattle.file_table.specs.Table.{analysis_at};
ghost use Rattle.soname_links.specs.Marks.{mixed_among};
ghost use Rattle.soname_links.specs.Survey.{mixed_soname, mixed_sonames};

use crate::groups::{Group, groups_in};
use file_table::Table;
use hwcap_dirs::Dirs;
use lib_types::{NoMemory, Seq, Text, Texts};
use library_files::real_folders;
use place_libraries::{BestLibraries, BySoname, Library, PlaceBests, libraries_in};
use std::alloc::Global;
use string_pool::Shared;
use tree_face::Tree;

// A summary of one directory's libraries, ordered by the bytes of their sonames.
#[derive(Drop)]
struct Summary {
    /// The best library of each soname.
    bests: BestLibraries,
    /// The sonames whose libraries have different ABIs.
    mixed: Texts,
}

// The summaries of several directories.
#[derive(Drop)]
struct Summaries {
    bests: Vec<BestLibraries>,
    mixed: Vec<Texts>,
}

/// The summaries of all search directories.
#[derive(Drop)]
pub(crate) struct PlaceSummaries {
    pub(crate) bests: PlaceBests,
    pub(crate) mixed: Shared<Texts>,
}

// Adds a soname if its libraries have different ABIs.
fn add_mixed(
    alloc: Global,
    group: &BySoname<'_, Group<'_>>,
    mixed: &mut Texts,
) -> Result<(), NoMemory>
    ensures { OnOk result (mixed.new ≡ mixed.old ++ filter_map mixed_soname (group.now ∷ [])) }
{
    if group.item().mixed {
        mixed.push(Text::copy_of(alloc, group.soname())?)?;
    }
    Ok(())
}

// Summarizes the libraries of one directory.
#[tactic(auto, using(crate::proofs::Grouped::bests_given, crate::proofs::Abis::mixed_given))]
fn summary_of(alloc: Global, libraries: Seq<Library<'_>>) -> Result<Summary, NoMemory>
    ensures bests { IfOk result (λ found. found.bests ≡ bests libraries.entry) }
    ensures mixed { IfOk result (λ found. found.mixed ≡ mixed_among libraries.entry) }
{
    let groups = groups_in(alloc, libraries)?;
    let mut bests = BestLibraries::with_capacity(alloc, groups.len())?;
    let mut mixed = Texts::new(alloc);
    for group in groups {
        add_mixed(alloc, &group, &mut mixed)?;
        bests.push(&group.item().best)?;
    }
    Ok(Summary { bests, mixed })
}

// Summarizes the libraries of each directory.
fn summaries_of(alloc: Global, libraries: Vec<Seq<Library<'_>>>) -> Result<Summaries, NoMemory>
    ensures bests { IfOk result (λ found. found.bests.items ≡ map bests libraries.entry.items) }
    ensures mixed { IfOk result (λ found. found.mixed.items ≡ map mixed_among libraries.entry.items) }
{
    let mut found = Summaries {
        bests: Vec::with_capacity(alloc, libraries.len())?,
        mixed: Vec::with_capacity(alloc, libraries.len())?,
    };
    for libraries in libraries {
        let Summary { bests, mixed } = summary_of(alloc, libraries)?;
        found.bests.push(bests)?;
        found.mixed.push(mixed)?;
    }
    Ok(found)
}

/// Summarizes the libraries of each search directory. It goes through the table once for all directories.
pub(crate) fn place_summaries(
    alloc: Global,
    tree: &Tree,
    dirs: &Dirs,
    table: &Table,
) -> Result<PlaceSummaries, NoMemory>
    requires rows { AreOfPlaces tree.now dirs.now.places table.now }
    ensures bests { IfOk result (λ found. found.bests ≡ bests_of (analysis_at table.now) tree.now dirs.now.places) }
    ensures mixed { IfOk result (λ found. found.mixed ≡ map (mixed_sonames (analysis_at table.now) tree.now) dirs.now.places) }
{
    tree.know();
    let folders = real_folders(alloc, dirs)?;
    let libraries = libraries_in(alloc, &folders.paths, table)?;
    let found = summaries_of(alloc, libraries)?;
    let rows = Vec::from_slice(alloc, folders.rows.as_slice())?;
    Ok(PlaceSummaries {
        bests: Shared::new(found.bests, folders.rows),
        mixed: Shared::new(found.mixed, Seq::from_vec(rows)),
    })
}
