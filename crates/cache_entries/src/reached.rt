//! The links of a search directory that may win a soname.
ghost use Rattle.std.specs.List.{filter_map};
ghost use Rattle.std.specs.Prelude.{◌≡◌, true, IfOk, IsTrue};
ghost use Rattle.file_table.specs.Table.{analysis_at};
ghost use Rattle.cache_entries.specs.Others.{has_file, AreAmong, HaveOthers, IsPassed};
ghost use Rattle.cache_entries.specs.Winner.{linked};

use crate::winner::{has_own_name, linked};
use file_table::Table;
use lib_types::{NoMemory, compare_bytes};
use library_files::FollowedLinks;
use place_libraries::{BestIter, BestLibraries, Library};
use std::alloc::Global;
use std::cmp::Ordering;

// Whether one of the files that are left has this soname. Files with smaller sonames are skipped, because callers ask for links in nearly
// ascending order of soname.
#[tactic(auto, using(crate::proofs::Others::all_among, crate::proofs::Others::rest_among, crate::proofs::Others::first_there))]
fn reaches(left: &mut BestIter<'_>, soname: &[u8]) -> bool
    ensures left { AreAmong left.new left.old }
    ensures found { IsTrue result → has_file left.old soname.now ≡ true }
{
    while let Some(file) = left.first() {
        match compare_bytes(file.soname, soname) {
            Ordering::Less => {
                left.next();
            }
            Ordering::Equal => return true,
            Ordering::Greater => return false,
        }
    }
    false
}

// Whether the link loses to one of the files that are left.
fn is_passed(left: &mut BestIter<'_>, link: &Library<'_>) -> bool
    ensures left { AreAmong left.new left.old }
    ensures passed { IsTrue result → IsPassed left.old link.now }
{
    has_own_name(link) && reaches(left, link.name)
}

/// The libraries that the links of a search directory lead to, except most of those that lose to a file. Most links are named after the
/// soname of a file beside them, so few are left to sort. Some links that lose may be left.
#[tactic(auto, using(crate::proofs::Others::all_among, crate::proofs::Others::among_both, crate::proofs::Others::all_kept))]
pub(crate) fn reached_libraries<'a>(
    alloc: Global,
    table: &'a Table,
    files: &BestLibraries,
    links: &'a FollowedLinks,
) -> Result<Vec<Library<'a>>, NoMemory>
    ensures { IfOk result (λ kept. HaveOthers files.now (filter_map (linked (analysis_at table.now)) links.now) kept.items) }
{
    let mut kept = Vec::new(alloc);
    let mut left = files.iter();
    for link in links.iter() {
        if let Some(library) = linked(table, &link) {
            if !is_passed(&mut left, &library) {
                kept.push(library)?;
            }
        }
    }
    Ok(kept)
}
