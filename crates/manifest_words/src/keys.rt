//! The keywords of a line and their values.
ghost use Rattle.std.specs.Prelude.{◌≡◌, ◌<◌, ◌≤◌, ◌^◌, if◌then◌else◌, nat_lt, not, Some, None, is_some, length, IfOk, OnOk, IfSome, IsTrue, bytes_eq, position};
ghost use Rattle.std.specs.List.{list_any, list_all};
ghost use Rattle.std.specs.Char.{is_ascii_digit};
ghost use Rattle.std.specs.Str.Parse.{digits_value};
ghost use Rattle.image_tree.specs.Node.{is_key, has_no_nul};
ghost use Rattle.manifest_words.specs.Keys.{rank, first_fault, fault_unless, keyword_of, is_known, type_of, is_type, no_node_types, number_of, is_link_text, without, given_by, given_word, unset_word, is_equals, no_values};
ghost use Rattle.manifest_words.specs.declared.fault.LineKind.TheVariants.{BadNumber};
ghost use Rattle.manifest_words.specs.Views.{values_in, given_in, fault_of_text, written_fault};

use crate::escape::{decode, has_backslash};
use crate::fault::LineKind;
use lib_types::{NoMemory, find_byte, is_utf8};
use std::alloc::Global;
use tree_face::NODE_TEXT_MAX;

/// The keywords that are used here. All others are `Other`.
#[derive(Clone, Copy, Debug, PartialEq, Eq)]
pub enum Keyword {
    Type,
    Link,
    Dev,
    Inode,
    Ctime,
    Size,
    Contents,
    Other,
}

/// The type of a line: a type of nodes, a type that is ignored, or an unknown type.
#[derive(Clone, Copy, Debug, PartialEq, Eq)]
pub enum LineType {
    File,
    Dir,
    Link,
    NoNode,
    Unknown,
}

/// The values of keywords. The values of `link` and `contents` are kept as written, with their escapes.
#[derive(Clone, Copy)]
pub struct Keys<'a> {
    pub kind: LineType,
    /// Empty if there is none.
    pub link: &'a [u8],
    pub dev: Option<u64>,
    pub inode: Option<u64>,
    pub ctime: Option<u64>,
    pub size: Option<u64>,
    pub contents: Option<&'a [u8]>,
}

/// The values after some of a line's keywords, and the first error of these keywords.
#[derive(Clone, Copy)]
pub struct Given<'a> {
    pub keys: Keys<'a>,
    pub fault: Option<LineKind>,
}

/// No values. A line without a type is a file.
pub fn no_keys<'a>() -> Keys<'a>
    ensures { values_in result ≡ no_values }
{
    Keys {
        kind: LineType::File,
        link: b"",
        dev: None,
        inode: None,
        ctime: None,
        size: None,
        contents: None,
    }
}

fn rank(kind: LineKind) -> u8
    ensures { result ≡ rank kind }
{
    match kind {
        LineKind::BadEscape => 0,
        LineKind::BadLine => 1,
        LineKind::BadNumber => 2,
        LineKind::BadType => 3,
        LineKind::NoTarget => 4,
    }
}

/// The error that is reported if a line has these two.
pub fn first_fault(a: Option<LineKind>, b: Option<LineKind>) -> Option<LineKind>
    ensures { result ≡ first_fault a b }
{
    let Some(x) = a else {
        return b;
    };
    let Some(y) = b else {
        return a;
    };
    if rank(x) <= rank(y) { a } else { b }
}

/// No error if the test holds, otherwise an error of this kind.
pub fn fault_unless(holds: bool, kind: LineKind) -> Option<LineKind>
    ensures { result ≡ fault_unless holds kind }
{
    if holds { None } else { Some(kind) }
}

fn keyword_of(key: &[u8]) -> Keyword
    ensures { result ≡ keyword_of key.now }
{
    match key {
        b"type" => Keyword::Type,
        b"link" => Keyword::Link,
        b"dev" => Keyword::Dev,
        b"inode" => Keyword::Inode,
        b"ctime" => Keyword::Ctime,
        b"size" => Keyword::Size,
        b"contents" => Keyword::Contents,
        _ => Keyword::Other,
    }
}

fn is_known(keyword: Keyword) -> bool
    ensures { result ≡ is_known keyword }
{
    match keyword {
        Keyword::Other => false,
        _ => true,
    }
}

// Whether the value is a type that is ignored.
fn makes_no_node(value: &[u8]) -> bool
    ensures { result ≡ list_any (bytes_eq value.now) no_node_types }
{
    value == b"block".as_slice()
        || value == b"char".as_slice()
        || value == b"fifo".as_slice()
        || value == b"socket".as_slice()
}

fn type_of(value: &[u8]) -> LineType
    ensures { result ≡ type_of value.now }
{
    match value {
        b"file" => LineType::File,
        b"dir" => LineType::Dir,
        b"link" => LineType::Link,
        _ if makes_no_node(value) => LineType::NoNode,
        _ => LineType::Unknown,
    }
}

fn is_type(kind: LineType) -> bool
    ensures { result ≡ is_type kind }
{
    match kind {
        LineType::Unknown => false,
        _ => true,
    }
}

fn are_digits(value: &[u8]) -> bool
    ensures { result ≡ list_all is_ascii_digit value.now }
{
    value.iter().all(|b| b.is_ascii_digit())
}

// The number that the digits represent, if it is below 2^64.
#[tactic(auto, using(crate::proofs::Numbers::parsed, crate::proofs::Numbers::digits_text))]
fn long_number(value: &[u8]) -> Option<u64>
    requires some { 0 < length value.now }
    requires digits { IsTrue (list_all is_ascii_digit value.now) }
    ensures { result ≡ (if nat_lt (digits_value 10 value.now) (2 ^ 64) then Some (digits_value 10 value.now) else None) }
{
    match std::str::from_utf8(value) {
        Ok(digits) => digits.parse::<u64>().ok(),
        Err(_) => None,
    }
}

// The number that at most 19 digits represent, in one pass. It is always below 2^64.
#[tactic(auto, using(crate::proofs::Numbers::no_digits))]
fn short_number(value: &[u8]) -> Option<u64>
    requires few { length value.now ≤ 19 }
    ensures { result ≡ (if list_all is_ascii_digit value.now then Some (digits_value 10 value.now) else None) }
{
    let mut number = 0;
    for &digit in value {
        if !digit.is_ascii_digit() {
            return None;
        }
        number = 10 * number + u64::from(digit - b'0');
    }
    Some(number)
}

#[tactic(auto, using(crate::proofs::Numbers::short_fits))]
fn number_of(value: &[u8]) -> Option<u64>
    ensures { result ≡ number_of value.now }
{
    if value.is_empty() || value.len() > 20 {
        return None;
    }
    if value.len() < 20 {
        short_number(value)
    } else if are_digits(value) {
        long_number(value)
    } else {
        None
    }
}

// Stores the number that the value represents. Returns an error if the value isn't a number.
fn number_in(number: &mut Option<u64>, value: &[u8]) -> Option<LineKind>
    ensures number { number.new ≡ number_of value.now }
    ensures fault { result ≡ fault_unless (is_some (number_of value.now)) BadNumber }
{
    *number = number_of(value);
    fault_unless(number.is_some(), LineKind::BadNumber)
}

fn has_no_nul(text: &[u8]) -> bool
    ensures { result ≡ has_no_nul text.now }
{
    text.iter().all(|&b| b != 0)
}

fn is_link_text(text: &[u8]) -> bool
    ensures { result ≡ is_link_text text.now }
{
    text.len() <= NODE_TEXT_MAX && has_no_nul(text)
}

fn is_key(text: &[u8]) -> bool
    ensures { result ≡ is_key text.now }
{
    !text.is_empty() && is_link_text(text) && is_utf8(text)
}

// The error of a decoded value: a key if `is_contents`, otherwise a link's target.
fn fault_of_text(is_contents: bool, text: &[u8]) -> Option<LineKind>
    ensures { result ≡ fault_of_text is_contents text.now }
{
    let good = if is_contents {
        is_key(text)
    } else {
        is_link_text(text)
    };
    fault_unless(good, LineKind::BadLine)
}

// The error of a value with escapes. The escapes are decoded for the test.
fn escaped_fault(
    alloc: Global,
    is_contents: bool,
    value: &[u8],
) -> Result<Option<LineKind>, NoMemory>
    ensures { IfOk result (λ fault. fault ≡ written_fault is_contents value.now) }
{
    let mut text = Vec::new(alloc);
    if decode(&mut text, value)? {
        Ok(fault_of_text(is_contents, text.as_slice()))
    } else {
        Ok(Some(LineKind::BadEscape))
    }
}

// The error of a value of `contents` or `link`. A value without a backslash is tested without a copy.
#[tactic(auto, using(crate::proofs::Decoded::plain_fault))]
fn written_fault(
    alloc: Global,
    is_contents: bool,
    value: &[u8],
) -> Result<Option<LineKind>, NoMemory>
    ensures { IfOk result (λ fault. fault ≡ written_fault is_contents value.now) }
{
    if has_backslash(value) {
        escaped_fault(alloc, is_contents, value)
    } else {
        Ok(fault_of_text(is_contents, value))
    }
}

// Adds one more value. Its error is combined with the errors before it.
fn given_value<'a>(
    alloc: Global,
    given: &mut Given<'a>,
    keyword: Keyword,
    value: &'a [u8],
) -> Result<(), NoMemory>
    ensures { OnOk result (given_in given.new ≡ given_by (given_in given.old) (keyword, Some value.entry.now)) }
{
    let keys = &mut given.keys;
    let fault = match keyword {
        Keyword::Type => {
            keys.kind = type_of(value);
            fault_unless(is_type(keys.kind), LineKind::BadType)
        }
        Keyword::Link => {
            keys.link = value;
            written_fault(alloc, false, value)?
        }
        Keyword::Contents => {
            keys.contents = Some(value);
            written_fault(alloc, true, value)?
        }
        Keyword::Dev => number_in(&mut keys.dev, value),
        Keyword::Inode => number_in(&mut keys.inode, value),
        Keyword::Ctime => number_in(&mut keys.ctime, value),
        Keyword::Size => number_in(&mut keys.size, value),
        Keyword::Other => None,
    };
    given.fault = first_fault(given.fault, fault);
    Ok(())
}

fn without<'a>(keys: Keys<'a>, keyword: Keyword) -> Keys<'a>
    ensures { values_in result ≡ without (values_in keys.entry) keyword }
{
    let mut keys = keys;
    match keyword {
        Keyword::Type => keys.kind = LineType::File,
        Keyword::Link => keys.link = b"",
        Keyword::Dev => keys.dev = None,
        Keyword::Inode => keys.inode = None,
        Keyword::Ctime => keys.ctime = None,
        Keyword::Size => keys.size = None,
        Keyword::Contents => keys.contents = None,
        Keyword::Other => {}
    }
    keys
}

/// Adds the keyword and value of one more word.
pub fn given_word<'a>(alloc: Global, given: &mut Given<'a>, word: &'a [u8]) -> Result<(), NoMemory>
    ensures { OnOk result (given_in given.new ≡ given_word (given_in given.old) word.entry.now) }
{
    let Some(n) = find_byte(b'=', word) else {
        let fault = fault_unless(!is_known(keyword_of(word)), LineKind::BadLine);
        given.fault = first_fault(given.fault, fault);
        return Ok(());
    };
    given_value(alloc, given, keyword_of(&word[..n]), &word[n + 1..])
}

/// Removes the value of the keyword that the word names. Removes all values if the word is `all`.
pub fn unset_word<'a>(keys: Keys<'a>, word: &[u8]) -> Keys<'a>
    ensures { values_in result ≡ unset_word (values_in keys.entry) word.now }
{
    if word == b"all".as_slice() {
        no_keys()
    } else {
        without(keys, keyword_of(word))
    }
}
