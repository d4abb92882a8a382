//! A line, whose words are read one at a time.
ghost use Rattle.std.specs.Prelude.{◌≡◌, true, nat_eq, codes, fold, OnOk};
ghost use Rattle.std.specs.List.{starts_with};
ghost use Rattle.manifest_words.specs.Lines.{words_of, goes_on, physical_words};
ghost use Rattle.mtree_manifest.specs.Manifest.{head_of};
ghost use Rattle.mtree_manifest.specs.Progress.{started, given_by_head, with_word};
ghost use Rattle.manifest_words.specs.Views.{values_in, given_in};
ghost use Rattle.mtree_manifest.specs.Lining.{line_in};

use lib_types::{NoMemory, Separator, split};
use manifest_words::{Given, Keys, given_word, unset_word};
use std::alloc::Global;

/// The kind of a line, given by its first word.
#[derive(Clone, Copy, Debug, PartialEq, Eq)]
pub(crate) enum Head {
    Comment,
    Set,
    Unset,
    Close,
    Entry,
}

/// A joined line: the number of its first physical line, its first word, and the values given by the following words.
#[derive(Clone, Copy)]
pub(crate) struct Line<'a> {
    pub number: u64,
    pub first: Option<(Head, &'a [u8])>,
    pub given: Given<'a>,
}

/// A line without words so far.
pub(crate) fn start_line<'a>(number: u64, defaults: Keys<'a>) -> Line<'a>
    ensures { line_in result ≡ started number (values_in defaults.entry) }
{
    Line {
        number,
        first: None,
        given: Given {
            keys: defaults,
            fault: None,
        },
    }
}

// Tests the first character first: it decides most first words.
fn head_of(word: &[u8]) -> Head
    ensures { result ≡ head_of word.now }
{
    match word.first() {
        Some(b'#') => Head::Comment,
        Some(b'/') => slash_head(word),
        Some(b'.') if word == b"..".as_slice() => Head::Close,
        _ => Head::Entry,
    }
}

// The kind of a line whose first word begins with a slash.
fn slash_head(word: &[u8]) -> Head
    requires { starts_with nat_eq word.now (codes "/") ≡ true }
    ensures { result ≡ head_of word.now }
{
    if word == b"/set".as_slice() {
        Head::Set
    } else if word == b"/unset".as_slice() {
        Head::Unset
    } else {
        Head::Entry
    }
}

// Adds a word after the first word.
fn given_by_head<'a>(
    alloc: Global,
    head: Head,
    given: &mut Given<'a>,
    word: &'a [u8],
) -> Result<(), NoMemory>
    ensures { OnOk result (given_in given.new ≡ given_by_head head (given_in given.old) word.entry.now) }
{
    match head {
        Head::Comment | Head::Close => Ok(()),
        Head::Set | Head::Entry => given_word(alloc, given, word),
        Head::Unset => {
            given.keys = unset_word(given.keys, word);
            Ok(())
        }
    }
}

// Adds one word.
fn add_word<'a>(alloc: Global, line: &mut Line<'a>, word: &'a [u8]) -> Result<(), NoMemory>
    ensures { OnOk result (line_in line.new ≡ with_word (line_in line.old) word.entry.now) }
{
    match line.first {
        Some((head, _)) => given_by_head(alloc, head, &mut line.given, word),
        None => {
            line.first = Some((head_of(word), word));
            Ok(())
        }
    }
}

/// Adds the words of some bytes, which are separated by blanks.
pub(crate) fn add_words<'a>(
    alloc: Global,
    line: &mut Line<'a>,
    bytes: &'a [u8],
) -> Result<(), NoMemory>
    ensures { OnOk result (line_in line.new ≡ fold with_word (line_in line.old) (words_of bytes.entry.now)) }
{
    for word in split(Separator::Blank, bytes) {
        if !word.is_empty() {
            add_word(alloc, line, word)?;
        }
    }
    Ok(())
}

/// Whether a physical line is continued on the next line.
pub(crate) fn goes_on(physical: &[u8]) -> bool
    ensures { result ≡ goes_on physical.now }
{
    physical.ends_with(b"\\")
}

/// Adds the words of a physical line.
pub(crate) fn add_physical<'a>(
    alloc: Global,
    line: &mut Line<'a>,
    physical: &'a [u8],
) -> Result<(), NoMemory>
    ensures { OnOk result (line_in line.new ≡ fold with_word (line_in line.old) (physical_words physical.entry.now)) }
{
    if goes_on(physical) {
        add_words(alloc, line, &physical[..physical.len() - 1])
    } else {
        add_words(alloc, line, physical)
    }
}
