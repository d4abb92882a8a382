//! The links of a search directory: the libraries that they lead to, and the links that win.
ghost use Rattle.std.specs.Prelude.{◌≡◌, [], map, unwrap_or, IfOk};
ghost use Rattle.place_libraries.specs.Libraries.{library_at};
ghost use Rattle.place_libraries.specs.Pick.{better_by};
ghost use Rattle.cache_entries.specs.Ranked.{by_sonames, is_before, libraries_of, rank_of, ranked_link, soname_of};
ghost use Rattle.cache_entries.specs.Winner.{has_own_name, is_dev_name, linked, winners_among};
ghost use Rattle.file_table.specs.Table.{analysis_at};
ghost use Rattle.path_walk.specs.Names.{last};

use file_table::Table;
use lib_types::{Analysis, NoMemory, Text};
use library_files::FollowedLink;
use path_walk::parted;
use place_libraries::{
    BestLibraries, BySoname, Gather, Library, gather_by_soname, is_own, is_preferred,
};
use std::alloc::Global;

// ---- links to libraries

// The soname in a file's analysis. If it has none, the file's own name, which is extracted only in this case.
fn soname_after<'a>(soname: &'a Option<Text>, file: &'a [u8]) -> &'a [u8]
    ensures { result.now ≡ unwrap_or soname.now (last file.now) }
{
    match soname {
        Some(soname) => soname.as_bytes(),
        None => parted(file).1,
    }
}

// The library that a name leads to, given the path of its file.
fn library_after<'a>(table: &'a Table, name: &'a [u8], file: &'a [u8]) -> Option<Library<'a>>
    ensures { result ≡ library_at (analysis_at table.now) file.now name.now (last file.now) }
{
    match table.get(file) {
        Some(Analysis::Lib { abi, soname }) => Some(Library {
            name,
            soname: soname_after(soname, file),
            abi: *abi,
        }),
        Some(Analysis::Not(_)) | None => None,
    }
}

/// The library that a link leads to.
pub(crate) fn linked<'a>(table: &'a Table, link: &FollowedLink<'a>) -> Option<Library<'a>>
    ensures { result ≡ linked (analysis_at table.now) link.now }
{
    library_after(table, link.name, link.file?)
}

// ---- the classes

fn is_dev_name(name: &[u8], soname: &[u8]) -> bool
    ensures { result ≡ is_dev_name name.now soname.now }
{
    name.ends_with(b".so") && soname.starts_with(name) && name.len() < soname.len()
}

/// Whether a link is looked up by its own name.
pub(crate) fn has_own_name(link: &Library<'_>) -> bool
    ensures { result ≡ has_own_name link.now }
{
    is_own(link) || is_dev_name(link.name, link.soname)
}

// Links that are looked up by their own names come first.
#[derive(Clone, Copy)]
enum Class {
    Named,
    Other,
}

impl Class {
    fn rank(self) -> u8
        ensures { result ≡ rank_of self }
    {
        match self {
            Class::Named => 0,
            Class::Other => 1,
        }
    }
}

// The library of a link, with the soname by which it is looked up, and its class.
#[derive(Drop)]
struct Ranked<'a> {
    library: Library<'a>,
    class: Class,
}

fn ranked_link(link: Library<'_>) -> Ranked<'_>
    ensures { result ≡ ranked_link link.entry }
{
    if !has_own_name(&link) {
        return Ranked {
            library: link,
            class: Class::Other,
        };
    }
    Ranked {
        library: Library {
            soname: link.name,
            ..link
        },
        class: Class::Named,
    }
}

// ---- the winners

// Whether the first of two libraries with one soname is preferred.
fn is_before(ranked: &Ranked<'_>, other: &Ranked<'_>) -> bool
    ensures { result ≡ is_before ranked.now other.now }
{
    let (rank, others) = (ranked.class.rank(), other.class.rank());
    rank < others || (rank == others && is_preferred(&ranked.library, &other.library))
}

// Of two libraries with one soname, the first wins unless the second is preferred.
impl<'a> Gather<Ranked<'a>> for Ranked<'a> {
    ghost step = { better_by is_before };

    fn first(ranked: Ranked<'a>) -> Self {
        ranked
    }

    fn with(self, ranked: Ranked<'a>) -> Self {
        if is_before(&ranked, &self) {
            ranked
        } else {
            self
        }
    }
}

// Links by the soname by which they are looked up.
type Candidates<'a> = Vec<BySoname<'a, Ranked<'a>>>;

fn by_soname<'a>(ranked: Ranked<'a>) -> BySoname<'a, Ranked<'a>>
    ensures { result ≡ (soname_of ranked.entry, ranked.entry) }
{
    BySoname::new(ranked.library.soname(), ranked)
}

// Each link by the soname by which it is looked up.
fn candidates<'a>(alloc: Global, links: Vec<Library<'a>>) -> Result<Candidates<'a>, NoMemory>
    ensures { IfOk result (λ candidates. candidates.items ≡ by_sonames (map ranked_link links.entry.items)) }
{
    let mut candidates = Vec::with_capacity(alloc, links.len())?;
    for link in links {
        candidates.push(by_soname(ranked_link(link)))?;
    }
    Ok(candidates)
}

fn listed(alloc: Global, winners: Candidates<'_>) -> Result<BestLibraries, NoMemory>
    ensures { IfOk result (λ libraries. libraries ≡ libraries_of winners.entry.items) }
{
    let mut libraries = BestLibraries::with_capacity(alloc, winners.len())?;
    for winner in winners {
        libraries.push(&winner.item().library)?;
    }
    Ok(libraries)
}

/// The winners among the links, sorted by the bytes of their sonames. Files are ignored.
#[tactic(auto, using(crate::proofs::Ranks::link_winners))]
pub(crate) fn link_winners(
    alloc: Global,
    links: Vec<Library<'_>>,
) -> Result<BestLibraries, NoMemory>
    ensures { IfOk result (λ winners. winners ≡ winners_among [] links.entry.items) }
{
    let candidates = candidates(alloc, links)?;
    let winners = gather_by_soname(alloc, candidates)?;
    listed(alloc, winners)
}
