//! The command on a line of a script.
ghost use Rattle.std.specs.Prelude.{◌≡◌, false, IfOk, IsErrOf, IsTrue};
ghost use Rattle.std.specs.Str.{bytes_eq};
ghost use Rattle.image_tree.specs.Paths.{is_path};
ghost use Rattle.manifest_words.specs.Lines.{goes_on, words_of};
ghost use Rattle.script_lines.specs.Script.{asked_by, is_comment, line_of, path_in, IsProper};

use crate::words::{Words, first_word};
use lib_types::Text;
use mtree_manifest::{EntryLineFault, LineKind, read_entry, read_path};
use std::alloc::Global;
use tree_face::Node;

/// The command on a line.
#[derive(Drop)]
pub enum ScriptLine {
    /// The line has no words, or is a comment.
    Ignored,
    /// Put the node at the path. None if the line's type is ignored.
    Put(Option<(Text, Node)>),
    /// Remove the node at the path.
    Drop(Text),
    /// Update the image.
    Update,
}

fn is_word(word: &[u8], name: &str) -> bool
    ensures { result ≡ bytes_eq word.now name.now }
{
    word == name.as_bytes()
}

fn is_comment(word: &[u8]) -> bool
    ensures { result ≡ is_comment word.now }
{
    word.starts_with(b"#")
}

fn goes_on(line: &[u8]) -> bool
    ensures { result ≡ goes_on line.now }
{
    line.ends_with(b"\\")
}

const BAD_LINE: EntryLineFault = EntryLineFault::Bad(LineKind::BadLine);

// Reads the path in a text that has exactly one word.
fn read_dropped(alloc: Global, rest: &[u8]) -> Result<Text, EntryLineFault>
    ensures path { IfOk result (λ path. path_in (words_of rest.now) ≡ Ok path) }
    ensures bad { (kind : LineKind) → IsErrOf result (EntryLineFault.Bad kind) → path_in (words_of rest.now) ≡ Err kind }
    ensures proper { IfOk result (λ path. IsTrue (is_path path)) }
{
    let Some(one) = first_word(rest) else {
        return Err(BAD_LINE);
    };
    if first_word(one.rest).is_some() {
        return Err(BAD_LINE);
    }
    read_path(alloc, one.word)
}

// The command on a line, given its first word and the rest. The line must not be continued on the next line.
fn read_words(alloc: Global, words: Words<'_>) -> Result<ScriptLine, EntryLineFault>
    requires { goes_on words.rest.now ≡ false }
    ensures asked { IfOk result (λ asked. asked_by words.entry.word.now (words_of words.entry.rest.now) ≡ Ok asked) }
    ensures bad { (kind : LineKind) → IsErrOf result (EntryLineFault.Bad kind) → asked_by words.entry.word.now (words_of words.entry.rest.now) ≡ Err kind }
    ensures proper { IfOk result IsProper }
{
    if is_word(words.word, "put") {
        return Ok(ScriptLine::Put(read_entry(alloc, words.rest)?));
    }
    if is_word(words.word, "drop") {
        return Ok(ScriptLine::Drop(read_dropped(alloc, words.rest)?));
    }
    if is_word(words.word, "update") && first_word(words.rest).is_none() {
        return Ok(ScriptLine::Update);
    }
    Err(BAD_LINE)
}

/// Reads the command on a line. The line has no line feed.
pub fn read_line(alloc: Global, line: &[u8]) -> Result<ScriptLine, EntryLineFault>
    ensures asked { IfOk result (λ asked. line_of line.now ≡ Ok asked) }
    ensures bad { (kind : LineKind) → IsErrOf result (EntryLineFault.Bad kind) → line_of line.now ≡ Err kind }
    ensures proper { IfOk result IsProper }
{
    match first_word(line) {
        Some(words) if !is_comment(words.word) => {
            if goes_on(line) {
                return Err(BAD_LINE);
            }
            read_words(alloc, words)
        }
        _ => Ok(ScriptLine::Ignored),
    }
}
