//! The lines of a conf file.
ghost use Rattle.std.specs.Prelude.{◌≡◌};
ghost use Rattle.std.specs.Option.{option_copied};
ghost use Rattle.ldso_conf.specs.Lines.{arguments_of, before_equals, begins_in, text_of};

use lib_types::trim::{after, before_first, is_in, without_end, without_front};

/// A line without its comment, and without white space at both ends.
pub(crate) fn text_of(line: &[u8]) -> &[u8]
    ensures { result.now ≡ text_of line.now }
{
    let spaces = b" \t\x0b\x0c\r";
    without_end(spaces, without_front(spaces, before_first(b"#", line)))
}

fn begins_in(set: &[u8], bytes: &[u8]) -> bool
    ensures { result ≡ begins_in set.now bytes.now }
{
    !bytes.is_empty() && is_in(set, bytes[0])
}

/// The text after a keyword, if a blank follows the keyword.
pub(crate) fn arguments_of<'a>(keyword: &[u8], text: &'a [u8]) -> Option<&'a [u8]>
    ensures { option_copied result ≡ arguments_of keyword.now text.now }
{
    if !text.starts_with(keyword) {
        return None;
    }
    let rest = after(text, keyword.len());
    if begins_in(b" \t", rest) {
        Some(rest)
    } else {
        None
    }
}

/// The text before the `=`, without its trailing blanks.
pub(crate) fn before_equals(text: &[u8]) -> &[u8]
    ensures { result.now ≡ before_equals text.now }
{
    without_end(b" \t", before_first(b"=", text))
}
