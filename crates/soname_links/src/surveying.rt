//! The links planned for the search directories, and the sonames to report.
ghost use Rattle.std.specs.Prelude.{◌≡◌, ◌∷◌, ◌++◌, [], IfOk, IsTrue, OnOk, length, map};
ghost use Rattle.std.specs.List.{filter_map};
ghost use Rattle.hwcap_dirs.specs.Places.{are_dirs};
ghost use Rattle.soname_links.specs.Apply.{are_clear, is_plan};
ghost use Rattle.soname_links.specs.Marks.{blocked, blocked_for, mark, mixed};
ghost use Rattle.soname_links.specs.Plan.{is_regarded, is_taken, link_for, links};
ghost use Rattle.soname_links.specs.Survey.{blocked_by, by_place_with, links_by, mixed_by, spot_at, spot_by};
ghost use Rattle.place_libraries.specs.Best.{bests_of};
ghost use Rattle.file_table.specs.Analyses.{HaveNames};
ghost use Rattle.place_libraries.specs.Rows.{AreOfPlaces};
ghost use Rattle.file_table.specs.Table.{analysis_at};

use crate::kinds::Survey;
use crate::summary::place_summaries;
use file_table::Table;
use hwcap_dirs::{Dirs, Place};
use lib_types::{NoMemory, Seq, Text, Texts};
use library_files::has_no_cap;
use link_plan::{Mark, Marks, Plan, Planned};
use name_order::is_library_name;
use path_walk::join_into;
use place_libraries::{BestLibraries, Library, PlaceBests, is_own};
use std::alloc::Global;
use string_pool::Shared;
use tree_face::{Kind, Node, PATH_MAX, Tree};

// What is at the path of a wanted link.
#[derive(Clone, Copy)]
enum Spot {
    /// No link can be created there.
    Blocked,
    /// The wanted link is there.
    Linked,
    /// Nothing is there, or a link with another target.
    Free,
}

// The links planned for search directories, and the sonames to report.
#[derive(Drop)]
struct Marked {
    plan: Plan,
    blocked: Marks,
    mixed: Marks,
}

// A search directory with its number.
#[derive(Drop)]
struct Numbered<'a> {
    number: u32,
    place: &'a Place,
}

// Whether the best library with its soname wants a link.
fn is_regarded(best: &Library<'_>) -> bool
    ensures { result ≡ is_regarded best.now }
{
    !is_own(best) && is_library_name(best.soname)
}

fn is_taken(kind: Kind) -> bool
    ensures { result ≡ is_taken kind }
{
    match kind {
        Kind::File | Kind::Dir => true,
        Kind::Absent | Kind::Link => false,
    }
}

fn spot_by(node: &Node, file: &[u8]) -> Spot
    ensures { result ≡ spot_by file.now node.now }
{
    match node {
        Node::Link { target } => {
            if target.as_bytes() == file {
                Spot::Linked
            } else {
                Spot::Free
            }
        }
        Node::Dir | Node::File { .. } => Spot::Blocked,
    }
}

// What is at the path of a link to this file. A path without a node is looked up again, because it may be a directory.
#[tactic(auto, using(crate::proofs::Spots::spot_long, crate::proofs::Spots::spot_of_node, crate::proofs::Spots::spot_without))]
fn spot_at(tree: &Tree, path: &[u8], file: &[u8]) -> Spot
    ensures { result ≡ spot_at tree.now path.now file.now }
{
    if path.len() > PATH_MAX {
        return Spot::Blocked;
    }
    match tree.node(path) {
        Some(node) => spot_by(node, file),
        None => {
            if is_taken(tree.kind(path)) {
                Spot::Blocked
            } else {
                Spot::Free
            }
        }
    }
}

fn mark(alloc: Global, number: u32, soname: &[u8]) -> Result<Mark, NoMemory>
    ensures { IfOk result (λ m. m ≡ mark number soname.now) }
{
    Ok(Mark {
        place: number,
        soname: Text::copy_of(alloc, soname)?,
    })
}

fn planned(alloc: Global, number: u32, best: &Library<'_>, path: &[u8]) -> Result<Planned, NoMemory>
    ensures place { IfOk result (λ p. p.place ≡ number) }
    ensures soname { IfOk result (λ p. p.soname ≡ best.now.soname) }
    ensures file { IfOk result (λ p. p.file ≡ best.now.name) }
    ensures path { IfOk result (λ p. p.path ≡ path.now) }
{
    Ok(Planned {
        place: number,
        soname: Text::copy_of(alloc, best.soname)?,
        file: Text::copy_of(alloc, best.name)?,
        path: Text::copy_of(alloc, path)?,
    })
}

// Adds the link or the mark for the best library with a soname, if it wants a link that is missing. `path` is a buffer for its path.
fn add_wanted(
    alloc: Global,
    tree: &Tree,
    at: &Numbered<'_>,
    best: &Library<'_>,
    path: &mut Vec<u8>,
    found: &mut Marked,
) -> Result<(), NoMemory>
    ensures plan { OnOk result (found.new.plan ≡ found.old.plan ++ filter_map (link_for tree.now at.now.number at.now.place.now) (best.now ∷ [])) }
    ensures blocked { OnOk result (found.new.blocked ≡ found.old.blocked ++ filter_map (blocked_for tree.now at.now.number at.now.place.now) (best.now ∷ [])) }
    ensures mixed { OnOk result (found.new.mixed ≡ found.old.mixed) }
{
    if !is_regarded(best) {
        return Ok(());
    }
    join_into(path, at.place.real.as_bytes(), best.soname)?;
    match spot_at(tree, path, best.name) {
        Spot::Blocked => found.blocked.push(mark(alloc, at.number, best.soname)?)?,
        Spot::Linked => {}
        Spot::Free => found.plan.push(planned(alloc, at.number, best, path)?)?,
    }
    Ok(())
}

// Adds the links and the marks for the best libraries of a search directory, in the order of their sonames.
fn add_links(
    alloc: Global,
    tree: &Tree,
    at: &Numbered<'_>,
    bests: &BestLibraries,
    found: &mut Marked,
) -> Result<(), NoMemory>
    ensures plan { OnOk result (found.new.plan ≡ found.old.plan ++ filter_map (link_for tree.now at.now.number at.now.place.now) bests.now) }
    ensures blocked { OnOk result (found.new.blocked ≡ found.old.blocked ++ filter_map (blocked_for tree.now at.now.number at.now.place.now) bests.now) }
    ensures mixed { OnOk result (found.new.mixed ≡ found.old.mixed) }
{
    let mut path = Vec::new(alloc);
    for best in bests.iter() {
        add_wanted(alloc, tree, at, &best, &mut path, found)?;
    }
    Ok(())
}

// Adds a mark for each of these sonames.
fn add_marks(
    alloc: Global,
    number: u32,
    sonames: &[Text],
    marks: &mut Marks,
) -> Result<(), NoMemory>
    ensures { OnOk result (marks.new ≡ marks.old ++ map (mark number) sonames.now) }
{
    for soname in sonames {
        marks.push(mark(alloc, number, soname.as_bytes())?)?;
    }
    Ok(())
}

// Adds the links and marks of a search directory, given its best libraries and its sonames with different ABIs.
fn add_place(
    alloc: Global,
    tree: &Tree,
    at: &Numbered<'_>,
    bests: &BestLibraries,
    mixed: &[Text],
    found: &mut Marked,
) -> Result<(), NoMemory>
    ensures plan { OnOk result (found.new.plan ≡ found.old.plan ++ links_by tree.now at.now.number at.now.place.now bests.now) }
    ensures blocked { OnOk result (found.new.blocked ≡ found.old.blocked ++ blocked_by tree.now at.now.number at.now.place.now bests.now) }
    ensures mixed { OnOk result (found.new.mixed ≡ found.old.mixed ++ map (mark at.now.number) mixed.now) }
{
    if has_no_cap(at.place) {
        add_links(alloc, tree, at, bests, found)?;
    }
    add_marks(alloc, at.number, mixed, &mut found.mixed)?;
    Ok(())
}

// The links and marks of all search directories, given the best libraries and the sonames with different ABIs of each.
fn marked_by(
    alloc: Global,
    tree: &Tree,
    dirs: &Dirs,
    bests: &PlaceBests,
    mixed: &Shared<Texts>,
) -> Result<Marked, NoMemory>
    requires bests { length bests.now ≡ length dirs.now.places }
    requires mixed { length mixed.now ≡ length dirs.now.places }
    ensures plan { IfOk result (λ found. found.plan ≡ by_place_with (links_by tree.now) 0 dirs.now.places bests.now) }
    ensures blocked { IfOk result (λ found. found.blocked ≡ by_place_with (blocked_by tree.now) 0 dirs.now.places bests.now) }
    ensures mixed { IfOk result (λ found. found.mixed ≡ by_place_with mixed_by 0 dirs.now.places mixed.now) }
{
    let mut found = Marked {
        plan: Seq::new(alloc),
        blocked: Seq::new(alloc),
        mixed: Seq::new(alloc),
    };
    let mut number: u32 = 0;
    let there = bests.iter().zip(mixed.iter());
    for (place, (bests, mixed)) in dirs.places.as_slice().iter().zip(there) {
        let at = Numbered { number, place };
        add_place(alloc, tree, &at, bests, mixed.as_slice(), &mut found)?;
        number = number.checked_add(1).ok_or(NoMemory)?;
    }
    Ok(found)
}

// The planned links, the sonames to report and the best libraries of all search directories.
#[tactic(auto, unfolding(place_libraries::specs::Best::bests_of))]
fn surveyed(alloc: Global, tree: &Tree, dirs: &Dirs, table: &Table) -> Result<Survey, NoMemory>
    requires rows { AreOfPlaces tree.now dirs.now.places table.now }
    ensures plan { IfOk result (λ survey. survey.plan ≡ links (analysis_at table.now) tree.now dirs.now.places) }
    ensures blocked { IfOk result (λ survey. survey.blocked ≡ blocked (analysis_at table.now) tree.now dirs.now.places) }
    ensures mixed { IfOk result (λ survey. survey.mixed ≡ mixed (analysis_at table.now) tree.now dirs.now.places) }
    ensures bests { IfOk result (λ survey. survey.bests ≡ bests_of (analysis_at table.now) tree.now dirs.now.places) }
{
    let summaries = place_summaries(alloc, tree, dirs, table)?;
    let found = marked_by(alloc, tree, dirs, &summaries.bests, &summaries.mixed)?;
    Ok(Survey {
        plan: found.plan,
        blocked: found.blocked,
        mixed: found.mixed,
        bests: summaries.bests,
    })
}

/// The links planned for the search directories, the sonames to report and the best libraries. The table must have only files with
/// library names in these directories. A directory that occurs several times is examined once. If the search directories are
/// directories of the tree, no link clashes when the links are put in order.
#[tactic(auto, using(crate::proofs::Named::links_named, crate::proofs::Clear::links_clear))]
pub fn survey(alloc: Global, tree: &Tree, dirs: &Dirs, table: &Table) -> Result<Survey, NoMemory>
    requires rows { AreOfPlaces tree.now dirs.now.places table.now }
    ensures plan { IfOk result (λ survey. survey.plan ≡ links (analysis_at table.now) tree.now dirs.now.places) }
    ensures is_plan { IfOk result (λ survey. IsTrue (are_dirs tree.now dirs.now.places) → IsTrue (is_plan survey.plan)) }
    ensures clear { IfOk result (λ survey. IsTrue (are_dirs tree.now dirs.now.places) → IsTrue (are_clear tree.now survey.plan)) }
    ensures names { HaveNames (analysis_at table.now) }
    ensures blocked { IfOk result (λ survey. survey.blocked ≡ blocked (analysis_at table.now) tree.now dirs.now.places) }
    ensures mixed { IfOk result (λ survey. survey.mixed ≡ mixed (analysis_at table.now) tree.now dirs.now.places) }
    ensures bests { IfOk result (λ survey. survey.bests ≡ bests_of (analysis_at table.now) tree.now dirs.now.places) }
{
    tree.know();
    table.know();
    let survey = surveyed(alloc, tree, dirs, table)?;
    Ok(survey)
}
