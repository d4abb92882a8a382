//! The winners of a search directory.
ghost use Rattle.std.specs.List.{slice_get};
ghost use Rattle.std.specs.Prelude.{◌≡◌, IfOk};
ghost use Rattle.hwcap_dirs.specs.declared.kinds.Place.{Place};
ghost use Rattle.image_tree.specs.Tree.{Nodes};
ghost use Rattle.place_libraries.specs.Best.{bests_in};
ghost use Rattle.library_files.specs.Search.{folder_links};
ghost use Rattle.file_table.specs.Table.{analysis_at};
ghost use Rattle.cache_entries.specs.Merged.{turn};
ghost use Rattle.cache_entries.specs.Winner.{winners_in};

use crate::reached::reached_libraries;
use crate::winner::link_winners;
use file_table::Table;
use lib_types::{NoMemory, compare_bytes};
use library_files::FolderLinks;
use place_libraries::{BestIter, BestLibraries, Library};
use std::alloc::Global;
use std::cmp::Ordering;
use std::marker::Model;

/// The winners of a search directory, sorted by the bytes of their sonames. They are its best files and the winners among its links. The
/// best files are borrowed, because there are many. Contracts see the list of the winners.
#[derive(Drop)]
pub(crate) struct Winners<'a> {
    files: &'a BestLibraries,
    links: BestLibraries,
}

impl<'a> Model for Winners<'a> {
    ghost use Rattle.std.specs.Prelude.{List};
    ghost use Rattle.place_libraries.specs.Library.{Library};
    ghost use Rattle.cache_entries.specs.Merged.{merged};

    ghost Value = { List Library };

    ghost view = { λ w. merged w.files.now w.links };
}

impl<'a> Winners<'a> {
    /// An upper bound on the number of winners, for reserving memory.
    pub(crate) fn most(&self) -> usize {
        self.files.len().saturating_add(self.links.len())
    }

    /// The winners, in order.
    pub(crate) fn iter(&self) -> InTurn<'_>
        ensures { result ≡ self.now }
    {
        InTurn {
            files: self.files.iter(),
            links: self.links.iter(),
        }
    }
}

/// Merges the files and links of a search directory, sorted by the bytes of their sonames. A link is skipped if a file has its soname.
/// Contracts see the list of the winners that are left.
#[derive(Drop)]
pub(crate) struct InTurn<'a> {
    files: BestIter<'a>,
    links: BestIter<'a>,
}

impl<'a> Model for InTurn<'a> {
    ghost use Rattle.std.specs.Prelude.{List};
    ghost use Rattle.place_libraries.specs.Library.{Library};
    ghost use Rattle.cache_entries.specs.Merged.{merged};

    ghost Value = { List Library };

    ghost view = { λ w. merged w.files w.links };
}

// What is next: Less for the first link, Greater for the first file, Equal if both have one soname.
fn turn(files: &BestIter<'_>, links: &BestIter<'_>) -> Ordering
    ensures { result ≡ turn (slice_get files.now 0) (slice_get links.now 0) }
{
    let Some(link) = links.first() else {
        return Ordering::Greater;
    };
    match files.first() {
        Some(file) => compare_bytes(link.soname, file.soname),
        None => Ordering::Less,
    }
}

impl<'a> Iterator for InTurn<'a> {
    ghost use Rattle.std.specs.Iterator.{YieldsFirstBy, item_count};

    type Item = Library<'a>;

    ghost next_gives = { YieldsFirstBy (λ x. x) (λ s. s) };

    ghost remaining = { item_count (λ s. s) };

    #[tactic(auto, using(crate::proofs::Merged::link_next, crate::proofs::Merged::file_next))]
    fn next(&mut self) -> Option<Library<'a>> {
        match turn(&self.files, &self.links) {
            Ordering::Less => self.links.next(),
            Ordering::Equal => {
                self.links.next();
                self.files.next()
            }
            Ordering::Greater => self.files.next(),
        }
    }
}

/// The winners of a search directory, from its links and the best library of each soname.
#[tactic(auto, using(crate::proofs::Merged::merged_winners))]
pub(crate) fn winners_in<'a>(
    alloc: Global,
    table: &Table,
    files: &'a BestLibraries,
    links: &FolderLinks,
) -> Result<Winners<'a>, NoMemory>
    ensures { (t : Nodes) (place : Place) → links.now ≡ folder_links t place → files.now ≡ bests_in (analysis_at table.now) t place
        → IfOk result (λ winners. winners ≡ winners_in (analysis_at table.now) t place) }
{
    let links = reached_libraries(alloc, table, files, &links.links)?;
    Ok(Winners {
        files,
        links: link_winners(alloc, links)?,
    })
}
