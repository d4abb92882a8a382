//! A single line of a script: a full path, and no defaults.
ghost use Rattle.std.specs.Prelude.{◌≡◌, [], Ok, Err, None, IfOk, IfSome, IsErrOf, IsTrue, option_map};
ghost use Rattle.std.specs.Option.{option_copied};
ghost use Rattle.image_tree.specs.Node.{is_node};
ghost use Rattle.image_tree.specs.Paths.{is_path};
ghost use Rattle.mtree_manifest.specs.Good.{IsGood};
ghost use Rattle.mtree_manifest.specs.Manifest.{put_by};
ghost use Rattle.manifest_words.specs.Paths.{place};
ghost use Rattle.mtree_manifest.specs.Single.{entry_alone, line_alone, path_alone, path_word, pathless_fault, place_fault_alone};
ghost use Rattle.manifest_words.specs.Views.{given_in, values_in};

use crate::entry::{find_place, is_dir, node_of, target_fault};
use crate::fault::EntryLineFault;
use crate::line::{Head, add_words, goes_on, start_line};
use crate::value::LastValue;
use lib_types::{NoMemory, Text};
use manifest_words::{
    Given, Keys, KnownPath, LineKind, fault_unless, first_fault, is_full, no_keys,
};
use std::alloc::Global;
use tree_face::Node;

// Fills the buffer with the path that a full first word names. Returns the error of the word, if it has an error.
#[tactic(auto, using(crate::proofs::Singles::found, crate::proofs::Singles::refused))]
fn find_path(path: &mut Vec<u8>, is_dir: bool, first: &[u8]) -> Result<Option<LineKind>, NoMemory>
    ensures fault { IfOk result (λ fault. fault ≡ place_fault_alone is_dir first.now) }
    ensures path { IfOk result (λ fault. fault ≡ None → path.new.items ≡ place [] first.now) }
{
    let mut known = KnownPath::none();
    match find_place(path, &mut known, b"", is_dir, first)? {
        Some(kind) => Ok(Some(kind)),
        None => {
            let leads = is_full(first) && !path.is_empty();
            Ok(fault_unless(leads, LineKind::BadLine))
        }
    }
}

// The path and the node that a line puts. None if the line's type is ignored, or for the root.
fn put_by(alloc: Global, keys: &Keys<'_>, path: Vec<u8>) -> Result<Option<(Text, Node)>, NoMemory>
    ensures { IfOk result (λ entry. entry ≡ put_by path.items (values_in keys.now)) }
{
    match node_of(alloc, &mut LastValue::none(), keys, path.as_slice())? {
        Some(node) => Ok(Some((Text::from_vec(path), node))),
        None => Ok(None),
    }
}

// The node of a line with a path.
#[tactic(auto, using(crate::proofs::Singles::none_placed, crate::proofs::Singles::proper))]
fn read_path_line(
    alloc: Global,
    given: &Given<'_>,
    first: &[u8],
) -> Result<Option<(Text, Node)>, EntryLineFault>
    requires good { IsGood (given_in given.now) }
    ensures entry { IfOk result (λ entry. entry_alone first.now (given_in given.now) ≡ Ok entry) }
    ensures bad { (kind : LineKind) → IsErrOf result (EntryLineFault.Bad kind) → entry_alone first.now (given_in given.now) ≡ Err kind }
    ensures proper { IfOk result (λ entry. IfSome entry (λ entry. IsTrue (is_path entry.0) × IsTrue (is_node entry.1))) }
{
    let keys = &given.keys;
    let mut path = Vec::new(alloc);
    let place = find_path(&mut path, is_dir(keys.kind), first)?;
    match first_fault(given.fault, first_fault(place, target_fault(keys))) {
        Some(kind) => Err(EntryLineFault::Bad(kind)),
        None => Ok(put_by(alloc, keys, path)?),
    }
}

// The first word of a line with a path.
fn path_word<'a>(first: Option<(Head, &'a [u8])>) -> Option<&'a [u8]>
    ensures { option_copied result ≡ path_word (option_map (λ first. (first.0, first.1.now)) first.entry) }
{
    match first {
        Some((Head::Entry, word)) => Some(word),
        _ => None,
    }
}

fn pathless_fault(given: Option<LineKind>) -> LineKind
    ensures { result ≡ pathless_fault given }
{
    first_fault(given, Some(LineKind::BadLine)).unwrap_or(LineKind::BadLine)
}

/// Reads the path and the node of a single line with a full path and no defaults. Returns the line's first error. Returns None
/// if the line's type is ignored.
#[tactic(auto, using(crate::proofs::Singles::read, crate::proofs::Singles::good))]
pub fn read_entry(alloc: Global, line: &[u8]) -> Result<Option<(Text, Node)>, EntryLineFault>
    ensures entry { IfOk result (λ entry. line_alone line.now ≡ Ok entry) }
    ensures bad { (kind : LineKind) → IsErrOf result (EntryLineFault.Bad kind) → line_alone line.now ≡ Err kind }
    ensures proper { IfOk result (λ entry. IfSome entry (λ entry. IsTrue (is_path entry.0) × IsTrue (is_node entry.1))) }
{
    if goes_on(line) {
        return Err(EntryLineFault::Bad(LineKind::BadLine));
    }
    let mut words = start_line(1, no_keys());
    add_words(alloc, &mut words, line)?;
    match path_word(words.first) {
        Some(first) => read_path_line(alloc, &words.given, first),
        None => Err(EntryLineFault::Bad(pathless_fault(words.given.fault))),
    }
}

/// Reads the full path in a single word, for a script's line that drops a node.
#[tactic(auto, using(crate::proofs::Singles::leads))]
pub fn read_path(alloc: Global, word: &[u8]) -> Result<Text, EntryLineFault>
    ensures path { IfOk result (λ path. path_alone word.now ≡ Ok path) }
    ensures bad { (kind : LineKind) → IsErrOf result (EntryLineFault.Bad kind) → path_alone word.now ≡ Err kind }
    ensures proper { IfOk result (λ path. IsTrue (is_path path)) }
{
    let mut path = Vec::new(alloc);
    match find_path(&mut path, false, word)? {
        Some(kind) => Err(EntryLineFault::Bad(kind)),
        None => Ok(Text::from_vec(path)),
    }
}
