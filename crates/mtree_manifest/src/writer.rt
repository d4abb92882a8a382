//! Writing the canonical manifest of a tree.
ghost use Rattle.std.specs.Prelude.{◌≡◌, ◌+◌, ◌++◌, ◌<◌, ◌≤◌, ◌^◌, codes, decimal, flat_map, drop, length, Some, OnOk, IfOk};
ghost use Rattle.std.specs.List.{list_all};
ghost use Rattle.std.specs.Str.{bytes_eq};
ghost use Rattle.mtree_manifest.specs.Canon.{id_words, key_words, file_words, node_words, node_line, canon};
ghost use Rattle.manifest_words.specs.Escape.{is_unescaped, octal_digits, escaped_byte, escaped};
ghost use Rattle.mtree_manifest.specs.Manifest.{tree_of};
ghost use Rattle.mtree_manifest.specs.declared.fault.TheConstants.{MANIFEST_MAX};
ghost use Rattle.mtree_manifest.specs.declared.writer.TheConstants.{ID_SIZE};
ghost use Rattle.image_tree.specs.Tree.{IsTree};
ghost use Rattle.manifest_words.specs.Range.{AreBytes, IsIdInRange, IsSomeIdInRange, IsNodeInRange, IsInRange, AreInRange};

use lib_types::NoMemory;
use manifest_words::after_first;
use std::alloc::Global;
use tree_face::{Id, Node, Tree};

// Most lines have fewer bytes than this. With this much room for each line, the text rarely has to grow.
const LINE_SIZE: usize = 128;

// The maximum size of the four words of an identity: 25 bytes for the keywords, and 20 digits for each number.
const ID_SIZE: usize = 25 + 4 * 20;

fn is_unescaped(b: u8) -> bool
    ensures { result ≡ is_unescaped b }
{
    33 <= b && b <= 126 && b != b'\\' && b != b'#'
}

fn octal_digits(b: u8) -> [u8; 3]
    ensures { result ≡ octal_digits b }
{
    [b'0' + b / 64, b'0' + b / 8 % 8, b'0' + b % 8]
}

fn push_byte(out: &mut Vec<u8>, b: u8) -> Result<(), NoMemory>
    ensures { OnOk result (out.new.items ≡ out.old.items ++ escaped_byte b) }
{
    if is_unescaped(b) {
        out.push(b)?;
        return Ok(());
    }
    out.push(b'\\')?;
    out.extend_from_slice(&octal_digits(b))?;
    Ok(())
}

// Whether no byte needs an escape. The loop doesn't end early, so that the compiler can test many bytes at once.
fn are_plain(bytes: &[u8]) -> bool
    ensures plain { result ≡ list_all is_unescaped bytes.now }
    ensures range { AreBytes bytes.now }
{
    let mut plain = true;
    for &b in bytes {
        plain &= is_unescaped(b);
    }
    plain
}

fn push_each(out: &mut Vec<u8>, bytes: &[u8]) -> Result<(), NoMemory>
    ensures { OnOk result (out.new.items ≡ out.old.items ++ escaped bytes.now) }
{
    for &b in bytes {
        push_byte(out, b)?;
    }
    Ok(())
}

#[tactic(auto, using(manifest_words::proofs::Escaping::plain_escaped))]
fn push_escaped(out: &mut Vec<u8>, bytes: &[u8]) -> Result<(), NoMemory>
    ensures text { OnOk result (out.new.items ≡ out.old.items ++ escaped bytes.now) }
    ensures range { AreBytes bytes.now }
{
    if are_plain(bytes) {
        return push_text(out, bytes);
    }
    push_each(out, bytes)
}

fn push_text(out: &mut Vec<u8>, text: &[u8]) -> Result<(), NoMemory>
    ensures { OnOk result (out.new.items ≡ out.old.items ++ text.now) }
{
    out.extend_from_slice(text)?;
    Ok(())
}

// Writes a word and then a number into a text, so that they end at this index. Returns the index where the word begins.
fn put_before(text: &mut [u8; ID_SIZE], end: usize, word: &[u8], n: u64) -> usize
    requires room { length word.now + 20 ≤ end }
    requires within { end ≤ ID_SIZE }
    ensures text { drop result text.new ≡ word.now ++ decimal n ++ drop end text.old }
    ensures start { result ≤ end }
    ensures size { end ≤ result + length word.now + 20 }
    ensures range { n < 2 ^ 64 }
{
    let digits = itoa::write_digits(n, &mut text[..], end);
    let start = digits - word.len();
    text[start..digits].copy_from_slice(word);
    start
}

// The words of an identity are written from the end of a buffer, so that they are appended as one text.
fn push_id(out: &mut Vec<u8>, id: &Id) -> Result<(), NoMemory>
    ensures text { OnOk result (out.new.items ≡ out.old.items ++ id_words (Some id.now)) }
    ensures range { OnOk result (IsIdInRange id.now) }
{
    let id = *id;
    let mut text = [0; ID_SIZE];
    let start = put_before(&mut text, ID_SIZE, b" size=", id.size);
    let start = put_before(&mut text, start, b" ctime=", id.ctime);
    let start = put_before(&mut text, start, b" inode=", id.inode);
    let start = put_before(&mut text, start, b" dev=", id.dev);
    push_text(out, &text[start..])
}

fn push_key(out: &mut Vec<u8>, path: &[u8], key: &[u8]) -> Result<(), NoMemory>
    ensures text { OnOk result (out.new.items ≡ out.old.items ++ key_words path.now key.now) }
    ensures range { AreBytes key.now }
{
    if key == after_first(path) {
        return Ok(());
    }
    push_text(out, b" contents=")?;
    push_escaped(out, key)
}

fn push_file(out: &mut Vec<u8>, path: &[u8], key: &[u8], id: &Option<Id>) -> Result<(), NoMemory>
    ensures text { OnOk result (out.new.items ≡ out.old.items ++ file_words path.now key.now id.now) }
    ensures range { OnOk result (AreBytes key.now × IsSomeIdInRange id.now) }
{
    push_text(out, b" type=file")?;
    if let Some(id) = id {
        push_id(out, id)?;
    }
    push_key(out, path, key)
}

fn push_node(out: &mut Vec<u8>, path: &[u8], node: &Node) -> Result<(), NoMemory>
    ensures text { OnOk result (out.new.items ≡ out.old.items ++ node_words path.now node.now) }
    ensures range { OnOk result (IsNodeInRange node.now) }
{
    match node {
        Node::Dir => push_text(out, b" type=dir"),
        Node::File { key, id } => push_file(out, path, key.as_bytes(), id),
        Node::Link { target } => {
            push_text(out, b" type=link link=")?;
            push_escaped(out, target.as_bytes())
        }
    }
}

fn push_line(out: &mut Vec<u8>, path: &[u8], node: &Node) -> Result<(), NoMemory>
    ensures text { OnOk result (out.new.items ≡ out.old.items ++ node_line (path.now, node.now)) }
    ensures range { OnOk result (IsInRange (path.now, node.now)) }
{
    push_text(out, b".")?;
    push_escaped(out, path)?;
    push_node(out, path, node)?;
    push_text(out, b"\n")
}

// Appends the lines of a tree.
fn push_lines(out: &mut Vec<u8>, tree: &Tree) -> Result<(), NoMemory>
    ensures text { OnOk result (out.new.items ≡ out.old.items ++ flat_map node_line tree.now) }
    ensures range { OnOk result (AreInRange tree.now) }
    ensures tree { IsTree tree.now }
{
    for (path, node) in tree.nodes() {
        push_line(out, path, node)?;
    }
    Ok(())
}

/// The manifest of an empty tree.
pub const EMPTY_MANIFEST: &[u8] = b"#mtree\n";

/// Writes the canonical text of a tree: a line for each node, in the order of the tree.
#[tactic(auto, unfolding(crate::specs::Canon::canon), using(crate::proofs::RoundTrip::read_again))]
pub fn write(alloc: Global, tree: &Tree) -> Result<Vec<u8>, NoMemory>
    ensures text { IfOk result (λ text. text.items ≡ canon tree.now) }
    ensures read_again { IfOk result (λ text. length text.items ≤ MANIFEST_MAX → tree_of text.items ≡ Some tree.now) }
{
    let mut text = Vec::with_capacity(alloc, tree.len().saturating_mul(LINE_SIZE))?;
    push_text(&mut text, EMPTY_MANIFEST)?;
    push_lines(&mut text, tree)?;
    Ok(text)
}
