//! The best library of each soname, and which of two libraries is better.
ghost use Rattle.std.specs.Prelude.{◌≡◌, ◌∷◌, ◌++◌, [], IfOk, OnOk, length, slice_get};
ghost use Rattle.place_libraries.specs.Best.{is_own, is_preferred};
ghost use Rattle.place_libraries.specs.Library.{Library};
ghost use Rattle.place_libraries.specs.OneText.{library_in, AreWithin, IsRowWithin};
ghost use Rattle.lib_types.specs.Part.{IsLonger};

use crate::libraries::Library;
use lib_types::{Abi, NoMemory, Part, are_same};
use name_order::compare;
use std::alloc::Global;
use std::cmp::Ordering;
use std::marker::Model;
use string_pool::Shared;

// An estimate of the bytes of a library's name and soname, for the initial allocation.
const NAMES_LEN: usize = 24;

// The positions of a library's name and soname in a text.
#[derive(Clone, Copy)]
struct Row {
    name: Part,
    soname: Part,
    abi: Abi,
}

/// The best library of each soname in a directory, sorted by the bytes of the sonames. The names and sonames are stored in
/// one text. Contracts see the list of the libraries.
#[derive(Drop)]
pub struct BestLibraries {
    text: Vec<u8>,
    rows: Vec<Row>,
}

/// The best library of each soname of each search directory, in the order of the search directories.
pub type PlaceBests = Shared<BestLibraries>;

impl Model for BestLibraries {
    ghost use Rattle.std.specs.Prelude.{List, length, map};
    ghost use Rattle.place_libraries.specs.Library.{Library};
    ghost use Rattle.place_libraries.specs.OneText.{library_in, AreWithin};

    ghost Value = { List Library };

    ghost view = { λ l. map (library_in l.text.items) l.rows.items };

    ghost invariant = { λ l. AreWithin (length l.text.items) l.rows.items };
}

// The library of a row.
fn library_in<'a>(text: &'a [u8], row: &Row) -> Library<'a>
    requires { IsRowWithin (length text.now) row.now }
    ensures { result ≡ library_in text.now row.now }
{
    Library {
        name: row.name.bytes_in(text),
        soname: row.soname.bytes_in(text),
        abi: row.abi,
    }
}

// Adds a library's name to a text, and its soname if it is different from the name.
fn add_names(text: &mut Vec<u8>, library: &Library<'_>) -> Result<Row, NoMemory>
    ensures longer { IsLonger text.old.items text.new.items }
    ensures within { IfOk result (IsRowWithin (length text.new.items)) }
    ensures row { IfOk result (λ row. library_in text.new.items row ≡ library.now) }
{
    let name = Part::add(text, library.name)?;
    if is_own(library) {
        return Ok(Row {
            name,
            soname: name,
            abi: library.abi,
        });
    }
    let soname = Part::add(text, library.soname)?;
    Ok(Row {
        name,
        soname,
        abi: library.abi,
    })
}

impl BestLibraries {
    /// An empty list, with room for `count` libraries.
    pub fn with_capacity(alloc: Global, count: usize) -> Result<BestLibraries, NoMemory>
        ensures { IfOk result (λ libraries. libraries ≡ []) }
    {
        Ok(BestLibraries {
            text: Vec::with_capacity(alloc, count.saturating_mul(NAMES_LEN))?,
            rows: Vec::with_capacity(alloc, count)?,
        })
    }

    /// The number of libraries.
    pub fn len(&self) -> usize
        ensures { result ≡ length self.now }
    {
        self.rows.len()
    }

    /// Adds a copy of a library.
    pub fn push(&mut self, library: &Library<'_>) -> Result<(), NoMemory>
        ensures { OnOk result (self.new ≡ self.old ++ library.now ∷ []) }
    {
        let row = add_names(&mut self.text, library)?;
        self.rows.push(row)?;
        Ok(())
    }

    /// An iterator over the libraries.
    pub fn iter(&self) -> BestIter<'_>
        ensures { result ≡ self.now }
    {
        BestIter {
            text: self.text.as_slice(),
            rows: self.rows.as_slice(),
        }
    }
}

/// An iterator over the libraries of a list. Contracts see the list of the remaining libraries.
#[derive(Drop)]
pub struct BestIter<'a> {
    text: &'a [u8],
    rows: &'a [Row],
}

impl<'a> Model for BestIter<'a> {
    ghost use Rattle.std.specs.Prelude.{List, length, map};
    ghost use Rattle.place_libraries.specs.Library.{Library};
    ghost use Rattle.place_libraries.specs.OneText.{library_in, AreWithin};

    ghost Value = { List Library };

    ghost view = { λ l. map (library_in l.text.now) l.rows.now };

    ghost invariant = { λ l. AreWithin (length l.text.now) l.rows.now };
}

impl<'a> BestIter<'a> {
    /// The next library. It is not consumed.
    pub fn first(&self) -> Option<Library<'a>>
        ensures { result ≡ slice_get self.now 0 }
    {
        let row = self.rows.first()?;
        Some(library_in(self.text, row))
    }
}

impl<'a> Iterator for BestIter<'a> {
    ghost use Rattle.std.specs.Iterator.{YieldsFirstBy, item_count};

    type Item = Library<'a>;

    ghost next_gives = { YieldsFirstBy (λ x. x) (λ s. s) };

    ghost remaining = { item_count (λ s. s) };

    fn next(&mut self) -> Option<Library<'a>> {
        let (row, rest) = self.rows.split_first()?;
        self.rows = rest;
        Some(library_in(self.text, row))
    }
}

/// Whether the library's name is its soname.
pub fn is_own(library: &Library<'_>) -> bool
    ensures { result ≡ is_own library.now }
{
    are_same(library.name, library.soname)
}

/// Whether the first of two libraries with the same soname is better.
pub fn is_preferred(library: &Library<'_>, other: &Library<'_>) -> bool
    ensures { result ≡ is_preferred library.now other.now }
{
    !is_own(other) && (is_own(library) || compare(library.name, other.name) == Ordering::Greater)
}
