//! The first word of a line.
ghost use Rattle.std.specs.Prelude.{◌≡◌, [], MatchOption};
ghost use Rattle.manifest_words.specs.Lines.{words_of};
ghost use Rattle.script_lines.specs.Words.{IsFirst};

use lib_types::{Separator, cut};

/// The first word of a line, and the rest of the line after it.
#[derive(Clone, Copy)]
pub(crate) struct Words<'a> {
    pub word: &'a [u8],
    pub rest: &'a [u8],
}

/// The first word of a line, if it has one. If the line isn't continued on the next line, neither is the rest.
#[tactic(auto, using(crate::proofs::Ends::rest_ends))]
pub(crate) fn first_word(line: &[u8]) -> Option<Words<'_>>
    ensures { MatchOption result (words_of line.now ≡ []) (λ words. IsFirst line.now words.word.now words.rest.now) }
{
    let mut left = Some(line);
    while let Some(bytes) = left {
        let (part, rest) = cut(Separator::Blank, bytes);
        if !part.is_empty() {
            return Some(Words {
                word: part,
                rest: rest.unwrap_or(b""),
            });
        }
        left = rest;
    }
    None
}
