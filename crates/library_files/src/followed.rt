//! Links with library names, and the files that they resolve to.
ghost use Rattle.std.specs.Option.{option_copied};
ghost use Rattle.std.specs.List.{slice_get};
ghost use Rattle.std.specs.Prelude.{◌≡◌, ◌∷◌, ◌++◌, [], IfOk, OnOk, length};
ghost use Rattle.library_files.specs.LinkRows.{link_in, AreLinksWithin, IsLinkWithin};
ghost use Rattle.lib_types.specs.Part.{part_of, IsLonger, IsWithin};

use lib_types::{NoMemory, Part};
use std::alloc::Global;
use std::marker::Model;

/// A link with a library name, its target, and the resolved path of its file. `file` is None if the link doesn't resolve to
/// a file.
#[derive(Drop)]
pub struct FollowedLink<'a> {
    pub name: &'a [u8],
    pub target: &'a [u8],
    pub file: Option<&'a [u8]>,
}

impl<'a> Model for FollowedLink<'a> {
    ghost use Rattle.std.specs.Option.{option_copied};
    ghost use Rattle.library_files.specs.Link.{FollowedLink};

    ghost Value = { FollowedLink };

    ghost view = { λ l. record { name = l.name.now; target = l.target.now; file = option_copied l.file } };
}

// The positions of a link's name, its target and its file's path in a text.
#[derive(Clone, Copy)]
struct LinkRow {
    name: Part,
    target: Part,
    file: Option<Part>,
}

/// The links with library names in a directory, sorted by the bytes of their names. The names, the targets and the files'
/// paths are stored in one text. Contracts see the list of the links.
#[derive(Drop)]
pub struct FollowedLinks {
    text: Vec<u8>,
    rows: Vec<LinkRow>,
}

impl Model for FollowedLinks {
    ghost use Rattle.std.specs.Prelude.{List, length, map};
    ghost use Rattle.library_files.specs.Link.{FollowedLink};
    ghost use Rattle.library_files.specs.LinkRows.{link_in, AreLinksWithin};

    ghost Value = { List FollowedLink };

    ghost view = { λ l. map (link_in l.text.items) l.rows.items };

    ghost invariant = { λ l. AreLinksWithin (length l.text.items) l.rows.items };
}

// The link of a row.
fn link_in<'a>(text: &'a [u8], row: &LinkRow) -> FollowedLink<'a>
    requires { IsLinkWithin (length text.now) row.now }
    ensures { result ≡ link_in text.now row.now }
{
    let file = match row.file {
        Some(part) => Some(part.bytes_in(text)),
        None => None,
    };
    FollowedLink {
        name: row.name.bytes_in(text),
        target: row.target.bytes_in(text),
        file,
    }
}

// The position of a target in a text that has the file's path. Most targets are the end of the path, so they need no copy.
fn add_target(text: &mut Vec<u8>, target: &[u8], file: Part) -> Result<Part, NoMemory>
    requires { IsWithin (length text.old.items) file }
    ensures longer { IsLonger text.old.items text.new.items }
    ensures within { IfOk result (IsWithin (length text.new.items)) }
    ensures part { IfOk result (λ part. part_of text.new.items part ≡ target.now) }
{
    if file.bytes_in(text.as_slice()).ends_with(target) {
        return Ok(Part {
            from: file.to - target.len() as u32,
            to: file.to,
        });
    }
    Part::add(text, target)
}

// Adds a link's name, its target and its file's path to a text.
fn add_parts(
    text: &mut Vec<u8>,
    name: &[u8],
    target: &[u8],
    file: Option<&[u8]>,
) -> Result<LinkRow, NoMemory>
    ensures longer { IsLonger text.old.items text.new.items }
    ensures within { IfOk result (IsLinkWithin (length text.new.items)) }
    ensures row { IfOk result (λ row. link_in text.new.items row ≡ record { name = name.now; target = target.now; file = option_copied file.entry }) }
{
    let name = Part::add(text, name)?;
    let Some(path) = file else {
        let target = Part::add(text, target)?;
        return Ok(LinkRow {
            name,
            target,
            file: None,
        });
    };
    let file = Part::add(text, path)?;
    let target = add_target(text, target, file)?;
    Ok(LinkRow {
        name,
        target,
        file: Some(file),
    })
}

impl FollowedLinks {
    /// An empty list of links.
    pub(crate) fn new(alloc: Global) -> FollowedLinks
        ensures { result ≡ [] }
    {
        FollowedLinks {
            text: Vec::new(alloc),
            rows: Vec::new(alloc),
        }
    }

    /// The number of links.
    pub fn len(&self) -> usize
        ensures { result ≡ length self.now }
    {
        self.rows.len()
    }

    /// Adds a link with this name, this target and, if the link resolves to a file, the file's path. All are copied.
    pub(crate) fn push(
        &mut self,
        name: &[u8],
        target: &[u8],
        file: Option<&[u8]>,
    ) -> Result<(), NoMemory>
        ensures { OnOk result (self.new ≡ self.old ++ record { name = name.now; target = target.now; file = option_copied file.entry } ∷ []) }
    {
        let row = add_parts(&mut self.text, name, target, file)?;
        self.rows.push(row)?;
        Ok(())
    }

    /// Frees the memory that is reserved for more links.
    pub(crate) fn shrink_to_fit(&mut self)
        ensures { self.new ≡ self.old }
    {
        self.text.shrink_to_fit();
        self.rows.shrink_to_fit();
    }

    /// An iterator over the links.
    pub fn iter(&self) -> FollowedIter<'_>
        ensures { result ≡ self.now }
    {
        FollowedIter {
            text: self.text.as_slice(),
            rows: self.rows.as_slice(),
        }
    }
}

/// An iterator over the links of a directory. Contracts see the list of the remaining links.
#[derive(Drop)]
pub struct FollowedIter<'a> {
    text: &'a [u8],
    rows: &'a [LinkRow],
}

impl<'a> Model for FollowedIter<'a> {
    ghost use Rattle.std.specs.Prelude.{List, length, map};
    ghost use Rattle.library_files.specs.Link.{FollowedLink};
    ghost use Rattle.library_files.specs.LinkRows.{link_in, AreLinksWithin};

    ghost Value = { List FollowedLink };

    ghost view = { λ l. map (link_in l.text.now) l.rows.now };

    ghost invariant = { λ l. AreLinksWithin (length l.text.now) l.rows.now };
}

impl<'a> FollowedIter<'a> {
    /// The next link. It is not consumed.
    pub fn first(&self) -> Option<FollowedLink<'a>>
        ensures { result ≡ slice_get self.now 0 }
    {
        let row = self.rows.first()?;
        Some(link_in(self.text, row))
    }
}

impl<'a> Iterator for FollowedIter<'a> {
    ghost use Rattle.std.specs.Iterator.{YieldsFirstBy, item_count};

    type Item = FollowedLink<'a>;

    ghost next_gives = { YieldsFirstBy (λ x. x) (λ s. s) };

    ghost remaining = { item_count (λ s. s) };

    fn next(&mut self) -> Option<FollowedLink<'a>> {
        let (row, rest) = self.rows.split_first()?;
        self.rows = rest;
        Some(link_in(self.text, row))
    }
}
