//! The libraries of directories.
ghost use Rattle.std.specs.List.{list_any, slice_get, slice_index_or, slice_set, IsDistinct};
ghost use Rattle.std.specs.Prelude.{◌≡◌, ◌<◌, [], ◌∷◌, ◌++◌, Some, false, IfOk, MatchOption, OnOk, length, map, unwrap_or};
ghost use Rattle.std.specs.Str.{bytes_eq};
ghost use Rattle.place_libraries.specs.Libraries.{library_by};
ghost use Rattle.place_libraries.specs.Rows.{libraries_among, with_row};

use file_table::Table;
use indexmap::IndexSet;
use lib_types::{Abi, Analysis, NoMemory, Seq, Text, TextRef, are_same};
use path_walk::parted;
use std::alloc::Global;
use std::marker::Model;

/// A library of a search directory: the name of its file or of a link to it, and the soname by which it is looked up. Both are
/// borrowed from the tree and from the table of ELF information.
#[derive(Drop)]
pub struct Library<'a> {
    pub name: &'a [u8],
    pub soname: &'a [u8],
    pub abi: Abi,
}

impl<'a> Model for Library<'a> {
    ghost use Rattle.place_libraries.specs.Library.{Library};

    ghost Value = { Library };

    ghost view = { λ l. record { name = l.name.now; soname = l.soname.now; abi = l.abi } };
}

impl<'a> Library<'a> {
    /// The soname by which it is looked up.
    pub fn soname(&self) -> &'a [u8]
        ensures { result.now ≡ self.now.soname }
    {
        self.soname
    }
}

// The soname, or this name if there is none.
fn soname_or<'a>(soname: &'a Option<Text>, own: &'a [u8]) -> &'a [u8]
    ensures { result.now ≡ unwrap_or soname.now own.now }
{
    match soname {
        Some(soname) => soname.as_bytes(),
        None => own,
    }
}

fn library_by<'a>(name: &'a [u8], own: &'a [u8], analysis: &'a Analysis) -> Option<Library<'a>>
    ensures { result ≡ library_by name.now own.now analysis.now }
{
    match analysis {
        Analysis::Lib { abi, soname } => Some(Library {
            name,
            soname: soname_or(soname, own),
            abi: *abi,
        }),
        Analysis::Not(_) => None,
    }
}

// The row of a directory. Looks at the row `near` first, since files are visited directory by directory.
fn row_of(folders: &IndexSet<Text>, near: usize, folder: &[u8]) -> Option<usize>
    ensures row { MatchOption result (list_any (bytes_eq folder.now) folders.now.keys ≡ false) (λ row. slice_get folders.now.keys row ≡ Some folder.now) }
    ensures distinct { IsDistinct bytes_eq folders.now.keys }
{
    if let Some(text) = folders.as_slice().get(near) {
        if are_same(text.as_bytes(), folder) {
            return Some(near);
        }
    }
    folders.get_index_of(TextRef { bytes: folder })
}

// Adds a library after the libraries in this row.
fn push_at<'a>(
    found: &mut Vec<Seq<Library<'a>>>,
    row: usize,
    library: Library<'a>,
) -> Result<(), NoMemory>
    requires { row < length found.old.items }
    ensures { OnOk result (found.new.items ≡ slice_set found.old.items row (slice_index_or found.old.items row [] ++ library.entry ∷ [])) }
{
    found[row].push(library)
}

// Adds the library of a table's row to the libraries of its directory, if the directory is one of these. Keeps the number of
// the directory's row in `near`.
#[tactic(auto, using(crate::proofs::Spread::row_none, crate::proofs::Spread::row_away, crate::proofs::Spread::row_added))]
fn add_row<'a>(
    folders: &IndexSet<Text>,
    near: &mut usize,
    path: &'a [u8],
    analysis: &'a Analysis,
    found: &mut Vec<Seq<Library<'a>>>,
) -> Result<(), NoMemory>
    requires { length found.old.items ≡ length folders.now.keys }
    ensures { OnOk result (found.new.items ≡ with_row (path.now, analysis.now) folders.now.keys found.old.items) }
{
    let (folder, name) = parted(path);
    let Some(library) = library_by(name, name, analysis) else {
        return Ok(());
    };
    let Some(row) = row_of(folders, *near, folder) else {
        return Ok(());
    };
    *near = row;
    push_at(found, row, library)?;
    Ok(())
}

// An empty list of libraries for each of these directories.
fn none_each<'a>(alloc: Global, folders: &[Text]) -> Result<Vec<Seq<Library<'a>>>, NoMemory>
    ensures { IfOk result (λ found. found.items ≡ map (libraries_among []) folders.now) }
{
    let mut found = Vec::with_capacity(alloc, folders.len())?;
    for _folder in folders {
        found.push(Seq::new(alloc))?;
    }
    Ok(found)
}

/// The libraries of each of these directories, from the files of a table, in the order of its rows.
#[tactic(auto, using(crate::proofs::Spread::all_rows, crate::proofs::Spread::as_many))]
pub fn libraries_in<'a>(
    alloc: Global,
    folders: &IndexSet<Text>,
    table: &'a Table,
) -> Result<Vec<Seq<Library<'a>>>, NoMemory>
    ensures { IfOk result (λ found. found.items ≡ map (libraries_among table.now) folders.now.keys) }
{
    let mut found = none_each(alloc, folders.as_slice())?;
    let mut near = 0;
    for (path, analysis) in table.iter() {
        add_row(folders, &mut near, path.as_bytes(), analysis, &mut found)?;
    }
    Ok(found)
}
