//! The text of a tree.
ghost use Rattle.std.specs.Prelude.{◌≡◌, ◌++◌, ◌∷◌, ◌||◌, ℕ, List, codes, map, IfOk, OnOk};
ghost use Rattle.rpath_search.specs.Searching.{is_among};
ghost use Rattle.scope_tree.specs.Printed.{ending, how, indent, names_at, names_for, path_at, row_text, rows_text, tree_text};
ghost use Rattle.scope_tree.specs.Rows.{Row};
ghost use Rattle.scope_tree.specs.Stack.{row_of};

use crate::lines::{Line, lines_of};
use ldd_resolve::{Members, Reply, Scope, add_names};
use lib_types::NoMemory;
use rpath_search::Part;
use std::alloc::Global;
use string_pool::TextSet;

// The word for a part of the search.
fn how(part: Part) -> &'static [u8]
    ensures { result.now ≡ how part }
{
    match part {
        Part::Name => b"path",
        Part::Rpath => b"rpath",
        Part::LibraryPath => b"library path",
        Part::Runpath => b"runpath",
        Part::Cache => b"cache",
        Part::Default => b"default",
    }
}

fn path_at<'a>(members: &'a Members, index: usize) -> &'a [u8]
    ensures { result.now ≡ path_at members.entry.now index }
{
    match members.get(index) {
        Some(member) => member.path.as_bytes(),
        None => b"",
    }
}

// Adds the names of the member with this index.
fn add_names_at(
    alloc: Global,
    members: &Members,
    seen: &mut TextSet,
    index: usize,
) -> Result<(), NoMemory>
    ensures { OnOk result ((x : List ℕ) → is_among seen.new x ≡ (is_among seen.old x || is_among (names_at members.now index) x)) }
{
    match members.get(index) {
        Some(member) => add_names(alloc, seen, &member.names),
        None => Ok(()),
    }
}

// Adds the names of the member that was loaded.
fn add_names_for(
    alloc: Global,
    members: &Members,
    seen: &mut TextSet,
    reply: Reply,
) -> Result<(), NoMemory>
    ensures { OnOk result ((x : List ℕ) → is_among seen.new x ≡ (is_among seen.old x || is_among (names_for members.now reply) x)) }
{
    match reply {
        Reply::Loads { number, .. } => add_names_at(alloc, members, seen, number),
        Reply::Known | Reply::Missing => Ok(()),
    }
}

fn add_indent(text: &mut Vec<u8>, depth: usize) -> Result<(), NoMemory>
    ensures { OnOk result (text.new.items ≡ text.old.items ++ indent depth) }
{
    let mut left = depth;
    while left > 0 {
        text.extend_from_slice(b"    ")?;
        left -= 1;
    }
    Ok(())
}

// Adds the path of a member, and how it was found.
fn add_path(text: &mut Vec<u8>, path: &[u8], part: Part) -> Result<(), NoMemory>
    ensures { OnOk result (text.new.items ≡ text.old.items ++ (codes " => " ++ path.now ++ codes " (" ++ how part ++ codes ")")) }
{
    text.extend_from_slice(b" => ")?;
    text.extend_from_slice(path)?;
    text.extend_from_slice(b" (")?;
    text.extend_from_slice(how(part))?;
    text.extend_from_slice(b")")?;
    Ok(())
}

// Adds the text after a name.
fn add_ending(
    text: &mut Vec<u8>,
    members: &Members,
    seen: &TextSet,
    line: &Line<'_>,
) -> Result<(), NoMemory>
    ensures { OnOk result (text.new.items ≡ text.old.items ++ ending members.now seen.now line.now.name.now line.now.reply) }
{
    match line.reply {
        Reply::Loads { number, part } => add_path(text, path_at(members, number), part),
        Reply::Known => {
            let place: &[u8] = if seen.contains(line.name) {
                b" (above)"
            } else {
                b" (below)"
            };
            text.extend_from_slice(place)?;
            Ok(())
        }
        Reply::Missing => {
            text.extend_from_slice(b" => not found")?;
            Ok(())
        }
    }
}

fn add_line(
    text: &mut Vec<u8>,
    members: &Members,
    seen: &TextSet,
    line: &Line<'_>,
) -> Result<(), NoMemory>
    ensures { OnOk result (text.new.items ≡ text.old.items ++ row_text members.now seen.now (row_of line.now)) }
{
    add_indent(text, line.depth)?;
    text.extend_from_slice(line.name)?;
    add_ending(text, members, seen, line)?;
    text.push(b'\n')?;
    Ok(())
}

// Adds a line, and then the names of its object.
fn add_row(
    alloc: Global,
    text: &mut Vec<u8>,
    members: &Members,
    seen: &mut TextSet,
    line: &Line<'_>,
) -> Result<(), NoMemory>
    ensures { OnOk result ((rows : List Row) → text.new.items ++ rows_text members.now seen.new rows ≡ text.old.items ++ rows_text members.now seen.old (row_of line.now ∷ rows)) }
{
    add_line(text, members, seen, line)?;
    add_names_for(alloc, members, seen, line.reply)?;
    Ok(())
}

// Adds the lines below the program, whose names are seen.
fn add_lines(
    alloc: Global,
    text: &mut Vec<u8>,
    members: &Members,
    seen: TextSet,
    lines: &[Line<'_>],
) -> Result<(), NoMemory>
    ensures { OnOk result (text.new.items ≡ text.old.items ++ rows_text members.now seen (map row_of lines.now)) }
{
    let mut seen = seen;
    for line in lines {
        add_row(alloc, text, members, &mut seen, line)?;
    }
    Ok(())
}

/// The path of the program, and each object below the object that first needed it.
#[tactic(auto, unfolding(crate::specs::Printed::tree_text))]
pub fn tree_text(alloc: Global, scope: &Scope) -> Result<Vec<u8>, NoMemory>
    ensures { IfOk result (λ text. text.items ≡ tree_text scope.now) }
{
    let lines = lines_of(alloc, scope)?;
    let mut seen = TextSet::new(alloc);
    add_names_at(alloc, &scope.members, &mut seen, 0)?;
    let mut text = Vec::from_slice(alloc, path_at(&scope.members, 0))?;
    text.push(b'\n')?;
    add_lines(alloc, &mut text, &scope.members, seen, &lines)?;
    Ok(text)
}
