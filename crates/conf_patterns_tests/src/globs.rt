//! Which names match a component of a pattern.
use conf_patterns::glob_match;
use lib_types::NoMemory;
use std::alloc::Global;
use table_rows::{Differences, Row, Trial, Words, divide};

/// Each line has a pattern and a name after `match`, or after `mismatch` if they don't match.
pub(crate) struct Globs;

fn is_as_expected(line: &[u8]) -> bool {
    let (word, rest) = divide(b' ', line);
    let (pattern, name) = divide(b' ', rest);
    line.is_empty() || glob_match(pattern, name) == (word == b"match".as_slice())
}

const WORDS: &[Words] = &[&[b"match", b"mismatch"]];

impl Trial for Globs {
    fn words() -> &'static [Words] {
        WORDS
    }

    fn is_right(
        _alloc: Global,
        row: Row<'_>,
        differences: &mut Differences,
    ) -> Result<bool, NoMemory> {
        for line in row {
            if !is_as_expected(line) {
                differences.say(b"not so: ", line)?;
                return Ok(false);
            }
        }
        Ok(true)
    }
}
