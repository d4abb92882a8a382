//! Reading a manifest into a tree.
ghost use Rattle.mtree_manifest.specs.declared.fault.TheConstants.{MANIFEST_MAX};
ghost use Rattle.mtree_manifest.specs.declared.fault.ManifestFault.TheVariants as faults;
ghost use Rattle.std.specs.Prelude.{◌≡◌, ◌⊎◌, ◌≤◌, Some, None, length, OnOk, IfOk, IfErr, IsErrOf, IsTrue};
ghost use Rattle.mtree_manifest.specs.Ends.{Ends};
ghost use Rattle.mtree_manifest.specs.Good.{IsGood, IsGoodOpen, are_good};
ghost use Rattle.manifest_words.specs.Lines.{lines_in};
ghost use Rattle.mtree_manifest.specs.Lining.{line_in};
ghost use Rattle.manifest_words.specs.Escape.{DecodesAll};
ghost use Rattle.mtree_manifest.specs.Manifest.{no_lines, set_line, close_line, entry_fault, entry, stack_after, with_reading, with_lines, tree_of, first_bad};
ghost use Rattle.manifest_words.specs.Paths.{place};
ghost use Rattle.mtree_manifest.specs.Progress.{line_ended, physical_taken};
ghost use Rattle.mtree_manifest.specs.Reader.{state_in, progress_in, entry_put};
ghost use Rattle.manifest_words.specs.Views.{values_in, given_in};

use crate::dirs::Dirs;
use crate::entry::{find_place, is_dir, node_of, put_node, target_fault};
use crate::fault::{MANIFEST_MAX, ManifestFault};
use crate::line::{Head, Line, add_physical, goes_on, start_line};
use crate::value::LastValue;
use bstr::ByteSlice;
use lib_types::NoMemory;
use manifest_words::{Given, Keys, KnownPath, LineKind, first_fault, is_full, no_keys};
use std::alloc::Global;
use tree_face::Tree;

/// The result of the lines so far.
#[derive(Drop)]
pub(crate) struct Reader<'a> {
    alloc: Global,
    tree: Tree,
    dirs: Dirs,
    defaults: Keys<'a>,
    /// The path of the current line.
    path: Vec<u8>,
    /// The path of the last line that has its path without escapes. The next path is usually in the same directory or in one above it.
    known: KnownPath<'a>,
    last: LastValue<'a>,
}

// Opens the directory of a relative line. Its path begins with the current directory's path.
#[tactic(auto, using(manifest_words::proofs::Places::place_from, manifest_words::proofs::Places::place_longer))]
fn open_place(dirs: &mut Dirs, keys: &Keys<'_>, first: &[u8], path: &[u8]) -> Result<(), NoMemory>
    requires { path.now ≡ place dirs.old first.now }
    ensures { OnOk result (dirs.new ≡ stack_after dirs.old first.now (values_in keys.now)) }
{
    if is_dir(keys.kind) && !is_full(first) {
        let len = dirs.current().len();
        dirs.open(&path[len..])?;
    }
    Ok(())
}

impl<'a> Reader<'a> {
    fn new(alloc: Global) -> Reader<'a>
        ensures { state_in result ≡ no_lines }
    {
        Reader {
            alloc,
            tree: Tree::new(alloc),
            dirs: Dirs::new(alloc),
            defaults: no_keys(),
            path: Vec::new(alloc),
            known: KnownPath::none(),
            last: LastValue::none(),
        }
    }

    // Finds the path of a line. Returns the error of the line, if it has an error.
    fn find_entry(
        &mut self,
        given: &Given<'a>,
        first: &'a [u8],
    ) -> Result<Option<LineKind>, NoMemory>
        ensures fault { IfOk result (λ fault. fault ≡ entry_fault self.old.dirs first.entry.now (given_in given.now)) }
        ensures path { IfOk result (λ fault. fault ≡ None → self.new.path.items ≡ place self.old.dirs first.entry.now) }
        ensures state { state_in self.new ≡ state_in self.old }
    {
        let keys = &given.keys;
        let place = find_place(
            &mut self.path,
            &mut self.known,
            self.dirs.current(),
            is_dir(keys.kind),
            first,
        )?;
        Ok(first_fault(given.fault, first_fault(place, target_fault(keys))))
    }

    // Puts the node of a line without an error. The path was found before.
    fn put_entry(&mut self, line: &Line<'a>, first: &[u8]) -> Result<(), ManifestFault>
        requires faultless { entry_fault self.old.dirs first.now (given_in line.now.given) ≡ None }
        requires path { self.old.path.items ≡ place self.old.dirs first.now }
        requires good { IsGood (given_in line.now.given) }
        ensures { Ends result (entry_put line.now.number (state_in self.old) first.now (values_in line.now.given.keys)) (state_in self.new) }
    {
        let keys = &line.given.keys;
        let node = node_of(self.alloc, &mut self.last, keys, self.path.as_slice())?;
        open_place(&mut self.dirs, keys, first, self.path.as_slice())?;
        match node {
            Some(node) => put_node(&mut self.tree, line.number, self.path.as_slice(), node),
            None => Ok(()),
        }
    }

    // A line with a path.
    #[tactic(auto, using(crate::proofs::Goods::faultless, crate::proofs::Goods::faulty))]
    fn read_entry(&mut self, line: &Line<'a>, first: &'a [u8]) -> Result<(), ManifestFault>
        requires good { IsGood (given_in line.now.given) }
        ensures { Ends result (with_reading line.now.number (state_in self.old) (entry self.old.dirs first.entry.now (given_in line.now.given))) (state_in self.new) }
    {
        match self.find_entry(&line.given, first)? {
            Some(kind) => Err(ManifestFault::Bad {
                line: line.number,
                kind,
            }),
            None => self.put_entry(line, first),
        }
    }

    // A `/set` line.
    fn set_defaults(&mut self, line: &Line<'a>) -> Result<(), ManifestFault>
        ensures { Ends result (with_reading line.now.number (state_in self.old) (set_line (given_in line.now.given))) (state_in self.new) }
    {
        if let Some(kind) = line.given.fault {
            return Err(ManifestFault::Bad {
                line: line.number,
                kind,
            });
        }
        self.defaults = line.given.keys;
        Ok(())
    }

    // A `..` line.
    fn close(&mut self, number: u64) -> Result<(), ManifestFault>
        ensures { Ends result (with_reading number (state_in self.old) (close_line self.old.dirs)) (state_in self.new) }
    {
        if self.dirs.close() {
            Ok(())
        } else {
            Err(ManifestFault::Bad {
                line: number,
                kind: LineKind::BadLine,
            })
        }
    }

    // Applies a line after all of its words are read.
    fn end_line(&mut self, line: &Line<'a>) -> Result<(), ManifestFault>
        requires good { IsGoodOpen (line_in line.now) }
        ensures { Ends result (line_ended (state_in self.old) (line_in line.now)) (state_in self.new) }
    {
        let Some((head, first)) = line.first else {
            return Ok(());
        };
        match head {
            Head::Comment => Ok(()),
            Head::Set => self.set_defaults(line),
            Head::Unset => {
                self.defaults = line.given.keys;
                Ok(())
            }
            Head::Close => self.close(line.number),
            Head::Entry => self.read_entry(line, first),
        }
    }
}

// Reads one more physical line. If the line isn't continued, applies it and starts the next line.
fn take_physical<'a>(
    reader: &mut Reader<'a>,
    line: &mut Line<'a>,
    next: u64,
    physical: &'a [u8],
) -> Result<(), ManifestFault>
    requires defaults { IsTrue (are_good (state_in reader.old).defaults) }
    requires good { IsGoodOpen (line_in line.old) }
    ensures reads { Ends result (physical_taken next (state_in reader.old) (line_in line.old) physical.entry.now) (progress_in reader.new next line.new) }
    ensures defaults { OnOk result (IsTrue (are_good (state_in reader.new).defaults)) }
    ensures good { OnOk result (IsGoodOpen (line_in line.new)) }
{
    add_physical(reader.alloc, line, physical)?;
    if !goes_on(physical) {
        reader.end_line(line)?;
        *line = start_line(next, reader.defaults);
    }
    Ok(())
}

// Reads all lines of a text.
#[tactic(auto, using(crate::proofs::Goods::none_good, crate::proofs::Progressing::physicals, crate::proofs::Counting::few_lines))]
fn read_lines<'a>(reader: &mut Reader<'a>, text: &'a [u8]) -> Result<(), ManifestFault>
    requires short { length text.now ≤ MANIFEST_MAX }
    requires start { state_in reader.old ≡ no_lines }
    ensures { Ends result (with_lines no_lines (lines_in text.entry.now)) (state_in reader.new) }
{
    let mut line = start_line(1, reader.defaults);
    let mut next = 1;
    for physical in text.lines() {
        next += 1;
        take_physical(reader, &mut line, next, physical)?;
    }
    reader.end_line(&line)
}

/// Reads a manifest into a tree. Returns the first error: the text is too long, or the first bad line.
#[tactic(auto, unfolding(crate::specs::Manifest::outcome))]
pub fn read(alloc: Global, text: &[u8]) -> Result<Tree, ManifestFault>
    ensures tree { IfOk result (λ tree. tree_of text.now ≡ Some tree) }
    ensures fault { IfErr result (λ fault. (fault ≡ faults.NoMemory) ⊎ (first_bad text.now ≡ Some fault)) }
    ensures no_memory { IsErrOf result faults.NoMemory → length text.now ≤ MANIFEST_MAX }

    // The tree is made of the result of `decoded` for each word. This is the text that the word represents.
    ensures words { DecodesAll }
{
    if text.len() > MANIFEST_MAX {
        return Err(ManifestFault::TooLong {
            length: text.len() as u64,
        });
    }
    let mut reader = Reader::new(alloc);
    read_lines(&mut reader, text)?;
    Ok(reader.tree)
}
