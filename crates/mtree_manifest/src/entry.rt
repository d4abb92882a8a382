//! The node that a line with a path makes.
ghost use Rattle.std.specs.Prelude.{◌≡◌, None, drop, IfOk, IfSome, IsErrOf, OnOk, IsTrue};
ghost use Rattle.std.specs.Option.{option_copied};
ghost use Rattle.image_tree.specs.Node.{is_node};
ghost use Rattle.image_tree.specs.Paths.{is_path};
ghost use Rattle.image_tree.specs.Tree.{IsFullFor};
ghost use Rattle.mtree_manifest.specs.Ends.{Ends};
ghost use Rattle.mtree_manifest.specs.Manifest.{key_of, id_of, node_of, is_dir, is_link, target_fault, with_node};
ghost use Rattle.manifest_words.specs.Paths.{names_of, place_fault_of, path_of, base_by};
ghost use Rattle.manifest_words.specs.Naming.{is_place_after, place_fault_after};
ghost use Rattle.manifest_words.specs.Views.{values_in};

use crate::fault::ManifestFault;
use crate::value::LastValue;
use lib_types::{NoMemory, Text};
use manifest_words::{
    Keys, KnownPath, LineKind, LineType, after_first, append_names, fault_unless, is_directive,
    is_full,
};
use std::alloc::Global;
use tree_face::{Id, Node, Tree, TreeFault, is_path};

pub(crate) fn is_dir(kind: LineType) -> bool
    ensures { result ≡ is_dir kind }
{
    match kind {
        LineType::Dir => true,
        _ => false,
    }
}

fn is_link(kind: LineType) -> bool
    ensures { result ≡ is_link kind }
{
    match kind {
        LineType::Link => true,
        _ => false,
    }
}

/// A link needs a target.
pub(crate) fn target_fault(keys: &Keys<'_>) -> Option<LineKind>
    ensures { result ≡ target_fault (values_in keys.now) }
{
    let lacks_target = is_link(keys.kind) && keys.link.is_empty();
    fault_unless(!lacks_target, LineKind::NoTarget)
}

// Overwrites the buffer with these bytes.
fn fill(buffer: &mut Vec<u8>, bytes: &[u8]) -> Result<(), NoMemory>
    ensures { OnOk result (buffer.new.items ≡ bytes.now) }
{
    buffer.clear();
    buffer.extend_from_slice(bytes)?;
    Ok(())
}

// Fills the buffer with the path of the directory from which a word is resolved.
fn begin_at(path: &mut Vec<u8>, current: &[u8], word: &[u8]) -> Result<(), NoMemory>
    ensures { OnOk result (path.new.items ≡ base_by word.now current.now) }
{
    fill(path, if is_full(word) { b"" } else { current })
}

// Whether a word names a valid path, given the path and the length of the directory's path before the word's names.
fn is_place(is_dir: bool, are_names: bool, start: usize, path: &[u8]) -> bool
    ensures { result ≡ is_place_after is_dir are_names start path.now }
{
    are_names && (is_dir || path.len() != start) && (path.is_empty() || is_path(path))
}

fn place_fault(word: &[u8], is_place: bool) -> Option<LineKind>
    ensures { result ≡ place_fault_after word.now is_place }
{
    fault_unless(!is_directive(word) && is_place, LineKind::BadLine)
}

/// Fills the buffer with the path that a first word names. Returns the error of the word, if it has an error.
#[tactic(auto, using(manifest_words::proofs::Places::fault_after))]
pub(crate) fn find_place<'a>(
    path: &mut Vec<u8>,
    known: &mut KnownPath<'a>,
    current: &[u8],
    is_dir: bool,
    word: &'a [u8],
) -> Result<Option<LineKind>, NoMemory>
    ensures fault { IfOk result (λ fault. fault ≡ place_fault_of is_dir (base_by word.entry.now current.now) word.entry.now (names_of word.entry.now)) }
    ensures place { IfOk result (λ fault. fault ≡ None → path.new.items ≡ path_of (names_of word.entry.now) (base_by word.entry.now current.now)) }
{
    if let Some(plain) = known.next_path(word) {
        fill(path, plain)?;
        return Ok(None);
    }
    begin_at(path, current, word)?;
    let start = path.len();
    let Some(are_names) = append_names(path, word)? else {
        return Ok(Some(LineKind::BadEscape));
    };
    let is_place = is_place(is_dir, are_names, start, path.as_slice());
    Ok(place_fault(word, is_place))
}

fn key_of<'a>(
    alloc: Global,
    last: &mut LastValue<'a>,
    contents: Option<&'a [u8]>,
    path: &[u8],
) -> Result<Text, NoMemory>
    ensures { IfOk result (λ key. key ≡ key_of (option_copied contents.entry) path.now) }
{
    match contents {
        Some(value) => last.text_of(alloc, value),
        None => Text::copy_of(alloc, after_first(path)),
    }
}

fn id_of(keys: &Keys<'_>) -> Option<Id>
    ensures { result ≡ id_of (values_in keys.now) }
{
    let inode = keys.inode?;
    let ctime = keys.ctime?;
    let size = keys.size?;
    let dev = keys.dev.unwrap_or(0);
    Some(Id {
        dev,
        inode,
        ctime,
        size,
    })
}

/// The node of a path. The root has no node.
pub(crate) fn node_of<'a>(
    alloc: Global,
    last: &mut LastValue<'a>,
    keys: &Keys<'a>,
    path: &[u8],
) -> Result<Option<Node>, NoMemory>
    ensures { IfOk result (λ node. node ≡ node_of (values_in keys.now) path.now) }
{
    if path.is_empty() {
        return Ok(None);
    }
    match keys.kind {
        LineType::File => {
            let key = key_of(alloc, last, keys.contents, path)?;
            Ok(Some(Node::File {
                key,
                id: id_of(keys),
            }))
        }
        LineType::Dir => Ok(Some(Node::Dir)),
        LineType::Link => {
            let target = last.text_of(alloc, keys.link)?;
            Ok(Some(Node::Link { target }))
        }
        LineType::NoNode | LineType::Unknown => Ok(None),
    }
}

/// Puts the node into the tree. `number` is the line's number, for errors.
pub(crate) fn put_node(
    tree: &mut Tree,
    number: u64,
    path: &[u8],
    node: Node,
) -> Result<(), ManifestFault>
    requires path { IsTrue (is_path path.now) }
    requires node { IsTrue (is_node node) }
    ensures put { Ends result (with_node number tree.old (path.now, node)) tree.new }
    ensures no_memory { IsErrOf result ManifestFault.NoMemory → IsFullFor tree.old path.now node → ⊥ }
{
    match tree.put(path, node) {
        Ok(()) => Ok(()),
        Err(TreeFault::Clash) => Err(ManifestFault::Clash { line: number }),
        Err(TreeFault::Full) => Err(ManifestFault::TooMany { line: number }),
        Err(TreeFault::NoMemory) => Err(ManifestFault::NoMemory),
    }
}
