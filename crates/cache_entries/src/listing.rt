//! The entries of a cache.
ghost use Rattle.std.specs.Prelude.{◌≡◌, ◌≤◌, ◌+◌, ◌++◌, All, IfErr, IfOk, IsTrue, OnOk, length, map};
ghost use Rattle.cache_layout.specs.declared.limits.TheConstants.{ENTRIES_MAX};
ghost use Rattle.hwcap_dirs.specs.Places.{are_spelled};
ghost use Rattle.place_libraries.specs.Best.{bests_in, bests_of};
ghost use Rattle.library_files.specs.Search.{folder_links, followed};
ghost use Rattle.cache_entries.specs.Entries.{cap_of, entries_in, entry_of, entry_order, found, is_by_soname, is_fit, AreEntriesOf, IsEntryFault, IsOnlyListOf};
ghost use Rattle.cache_entries.specs.Led.{LeadAsSearched};
ghost use Rattle.file_table.specs.Table.{analysis_at};
ghost use Rattle.cache_entries.specs.Counts.{AreCounts};
ghost use Rattle.cache_entries.specs.Parts.{IsCountFault};

use crate::counts::count_in;
use crate::fault::EntryFault;
use crate::links_of::LinksOf;
use crate::winners::{Winners, winners_in};
use cache_layout::ENTRIES_MAX;
use file_table::Table;
use hwcap_dirs::{Dirs, Place};
use indexmap::IndexMap;
use lib_types::{Entries, Entry, NoMemory, Seq, Text};
use library_files::{FolderLinks, PlaceLinks, has_no_cap};
use name_order::compare;
use path_walk::join;
use place_libraries::{BestLibraries, Library, PlaceBests, is_own};
use std::alloc::Global;
use std::cmp::Ordering;
use tree_face::Tree;

// ---- the order of entries

// The hwcaps name of an entry, or nothing if it has none.
fn cap_of(entry: &Entry) -> &[u8]
    ensures { result.now ≡ cap_of entry.now }
{
    match &entry.cap {
        Some(cap) => cap.as_bytes(),
        None => b"",
    }
}

// The order of entries.
fn compare_entries(a: &Entry, b: &Entry) -> Ordering
    ensures { result ≡ entry_order a.now b.now }
{
    compare(b.soname.as_bytes(), a.soname.as_bytes()).then_with(|| {
        b.abi.flags().cmp(&a.abi.flags()).then(
            a.cap
                .is_none()
                .cmp(&b.cap.is_none())
                .then(cap_of(a).cmp(cap_of(b)).then(a.place.cmp(&b.place))),
        )
    })
}

// ---- the entries of the search directories

// Whether the soname leads to the winner, given the links of the search directory.
fn is_by_soname(
    place: &Place,
    winner: &Library<'_>,
    links: &mut LinksOf<'_>,
) -> Result<bool, NoMemory>
    requires { links.old.path ≡ place.now.real }
    ensures leads { IfOk result (λ leads. leads ≡ is_by_soname links.old.tree place.now winner.now) }
    ensures same { links.new ≡ links.old }
{
    if !has_no_cap(place) {
        return Ok(false);
    }
    if is_own(winner) {
        return Ok(true);
    }
    links.has(winner.soname, winner.name)
}

// The entry of a winner, given the links of the search directory.
fn entry_of(
    alloc: Global,
    number: u32,
    place: &Place,
    winner: &Library<'_>,
    links: &mut LinksOf<'_>,
) -> Result<Entry, NoMemory>
    requires { links.old.path ≡ place.now.real }
    ensures entry { IfOk result (λ entry. entry ≡ entry_of links.old.tree number place.now winner.now) }
    ensures same { links.new ≡ links.old }
{
    let name = if is_by_soname(place, winner, links)? {
        winner.soname
    } else {
        winner.name
    };
    Ok(Entry {
        soname: Text::copy_of(alloc, winner.soname)?,
        abi: winner.abi,
        cap: Text::copy_if_some(alloc, &place.cap)?,
        path: join(alloc, place.spelled.as_bytes(), name)?,
        place: number,
    })
}

/// The entries that are found, and their number. Past the limit, entries are only counted. `winners` caches the numbers of winners by
/// directory.
#[derive(Drop)]
struct Counted {
    entries: Vec<Entry>,
    count: usize,
    winners: IndexMap<Text, usize>,
}

/// A search directory with its number, its links and its best libraries.
#[derive(Drop)]
struct Searched<'a> {
    number: u32,
    place: &'a Place,
    files: &'a BestLibraries,
    links: &'a FolderLinks,
}

// Adds the entries of the winners of a search directory, and counts them.
fn add_entries(
    alloc: Global,
    tree: &Tree,
    searched: &Searched<'_>,
    winners: &Winners<'_>,
    found: &mut Counted,
) -> Result<(), NoMemory>
    requires { searched.now.links.now ≡ folder_links tree.now searched.now.place.now }
    ensures count { OnOk result (found.new.count ≡ found.old.count + length winners.now) }
    ensures kept { OnOk result (found.new.count ≤ ENTRIES_MAX
        → found.new.entries.items ≡ found.old.entries.items ++ map (entry_of tree.now searched.now.number searched.now.place.now) winners.now) }
    ensures winners { OnOk result (found.new.winners ≡ found.old.winners) }
{
    let mut by_name = LinksOf::new(alloc, tree, searched.place, searched.links);
    found.entries.reserve(winners.most())?;
    for winner in winners.iter() {
        found.count = found.count.checked_add(1).ok_or(NoMemory)?;
        if found.count <= ENTRIES_MAX {
            let entry = entry_of(
                alloc,
                searched.number,
                searched.place,
                &winner,
                &mut by_name,
            )?;
            found.entries.push(entry)?;
        }
    }
    Ok(())
}

// Adds the entries of a search directory.
fn add_place(
    alloc: Global,
    tree: &Tree,
    table: &Table,
    searched: &Searched<'_>,
    found: &mut Counted,
) -> Result<(), NoMemory>
    requires files { searched.now.files.now ≡ bests_in (analysis_at table.now) tree.now searched.now.place.now }
    requires links { searched.now.links.now ≡ folder_links tree.now searched.now.place.now }
    ensures count { OnOk result (found.new.count ≡ found.old.count + length (entries_in (analysis_at table.now) tree.now searched.now.number searched.now.place.now)) }
    ensures kept { OnOk result (found.new.count ≤ ENTRIES_MAX
        → found.new.entries.items ≡ found.old.entries.items ++ entries_in (analysis_at table.now) tree.now searched.now.number searched.now.place.now) }
    ensures winners { OnOk result (found.new.winners ≡ found.old.winners) }
{
    let winners = winners_in(alloc, table, searched.files, searched.links)?;
    add_entries(alloc, tree, searched, &winners, found)
}

// Adds the entries of a search directory. Past the limit it only counts them.
fn take_place(
    alloc: Global,
    tree: &Tree,
    table: &Table,
    searched: &Searched<'_>,
    found: &mut Counted,
) -> Result<(), NoMemory>
    requires files { searched.now.files.now ≡ bests_in (analysis_at table.now) tree.now searched.now.place.now }
    requires links { searched.now.links.now ≡ folder_links tree.now searched.now.place.now }
    requires winners { AreCounts (analysis_at table.now) tree.now found.old.winners.entries }
    ensures count { OnOk result (found.new.count ≡ found.old.count + length (entries_in (analysis_at table.now) tree.now searched.now.number searched.now.place.now)) }
    ensures kept { OnOk result (found.new.count ≤ ENTRIES_MAX
        → found.new.entries.items ≡ found.old.entries.items ++ entries_in (analysis_at table.now) tree.now searched.now.number searched.now.place.now) }
    ensures winners { OnOk result (AreCounts (analysis_at table.now) tree.now found.new.winners.entries) }
{
    if found.count <= ENTRIES_MAX {
        return add_place(alloc, tree, table, searched, found);
    }
    let count = count_in(
        alloc,
        table,
        searched.files,
        searched.links,
        &mut found.winners,
    )?;
    found.count = found.count.checked_add(count).ok_or(NoMemory)?;
    Ok(())
}

// All entries, one search directory after another.
#[tactic(auto, unfolding(crate::specs::Entries::found, place_libraries::specs::Best::bests_of, library_files::specs::Search::followed))]
fn found(
    alloc: Global,
    tree: &Tree,
    dirs: &Dirs,
    table: &Table,
    bests: &PlaceBests,
    links: &PlaceLinks,
) -> Result<Counted, NoMemory>
    requires bests { bests.now ≡ bests_of (analysis_at table.now) tree.now dirs.now.places }
    requires links { links.now ≡ followed tree.now dirs.now.places }
    ensures count { IfOk result (λ kept. kept.count ≡ length (found (analysis_at table.now) tree.now dirs.now.places)) }
    ensures kept { IfOk result (λ kept. kept.count ≤ ENTRIES_MAX → kept.entries.items ≡ found (analysis_at table.now) tree.now dirs.now.places) }
{
    let mut found = Counted {
        entries: Vec::new(alloc),
        count: 0,
        winners: IndexMap::new(alloc),
    };
    let mut number: u32 = 0;
    let there = bests.iter().zip(links.iter());
    for (place, (files, links)) in dirs.places.as_slice().iter().zip(there) {
        let searched = Searched {
            number,
            place,
            files,
            links,
        };
        take_place(alloc, tree, table, &searched, &mut found)?;
        number = number.checked_add(1).ok_or(NoMemory)?;
    }
    Ok(found)
}

// ---- the list of entries

// Sorts entries in place. No two compare equal, so the sort doesn't have to be stable.
fn sort_entries(entries: &mut Vec<Entry>)
    ensures { AreEntriesOf entries.old.items entries.new.items }
{
    entries.sort_unstable_by(
        |a: &Entry, b: &Entry| -> Ordering
            ensures { result ≡ entry_order a.now b.now }
        { compare_entries(a, b) },
    );
}

// The entries, sorted. Fails if they are too many.
fn in_order(found: Counted) -> Result<Entries, EntryFault>
    ensures entries { IfOk result (AreEntriesOf found.entries.items) }
    ensures few { IfOk result (λ _. found.count ≤ ENTRIES_MAX) }
    ensures fault { IfErr result (IsCountFault found.count) }
{
    if found.count > ENTRIES_MAX {
        return Err(EntryFault::TooMany {
            count: found.count as u64,
        });
    }
    let mut entries = found.entries;
    sort_entries(&mut entries);
    Ok(Seq::from_vec(entries))
}

/// The entries of a cache, from the best libraries and the links of the search directories: one for each search directory and soname with
/// a winner. The tree must have all planned links.
pub fn entries_by(
    alloc: Global,
    tree: &Tree,
    dirs: &Dirs,
    table: &Table,
    bests: &PlaceBests,
    links: &PlaceLinks,
) -> Result<Entries, EntryFault>
    requires bests { bests.now ≡ bests_of (analysis_at table.now) tree.now dirs.now.places }
    requires links { links.now ≡ followed tree.now dirs.now.places }
    ensures entries { IfOk result (AreEntriesOf (found (analysis_at table.now) tree.now dirs.now.places)) }
    ensures single { IfOk result (IsOnlyListOf (found (analysis_at table.now) tree.now dirs.now.places)) }
    ensures fit { IfOk result (λ entries. IsTrue (are_spelled dirs.now.places) → All (λ entry. IsTrue (is_fit entry)) entries) }
    ensures led { IfOk result (LeadAsSearched (analysis_at table.now) tree.now dirs.now.places) }
    ensures few { IfOk result (λ _. length (found (analysis_at table.now) tree.now dirs.now.places) ≤ ENTRIES_MAX) }
    ensures fault { IfErr result (IsEntryFault (found (analysis_at table.now) tree.now dirs.now.places)) }
{
    tree.know();
    table.know();
    let found = found(alloc, tree, dirs, table, bests, links)?;
    let entries = in_order(found)?;
    Ok(entries)
}
