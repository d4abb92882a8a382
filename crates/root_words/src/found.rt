//! What `clap` found, by the options.
ghost use Rattle.std.specs.Prelude.{◌≡◌, map, option_map};
ghost use Rattle.clap.specs.Words.{first_of, found_of, rows_of};
ghost use Rattle.root_words.specs.Words.{directories, has, has_value};

use crate::command::is_word;
use clap::ArgMatches;

/// The first value of this option.
#[tactic(auto, using(crate::proofs::Rows::first_is))]
pub(crate) fn first_of<'a>(found: &ArgMatches<'a>, id: &str) -> Option<&'a str>
    ensures { option_map (λ t. t.now) result ≡ first_of id.now (rows_of (found_of found.now)) }
{
    found.get_str(id)
}

/// Whether the flag is given.
pub(crate) fn has(found: &ArgMatches<'_>, id: &str) -> bool
    ensures { result ≡ has id.now (rows_of (found_of found.now)) }
{
    match first_of(found, id) {
        Some(text) => is_word(text, "true"),
        None => false,
    }
}

/// Whether the option with a value is given.
pub(crate) fn has_value(found: &ArgMatches<'_>, id: &str) -> bool
    ensures { result ≡ has_value id.now (rows_of (found_of found.now)) }
{
    first_of(found, id).is_some()
}

/// The directories, which are given without an option.
#[tactic(auto, using(crate::proofs::Rows::all_are))]
pub(crate) fn directories<'m, 'a>(found: &'m ArgMatches<'a>) -> Option<&'m [&'a str]>
    ensures { option_map (λ texts. map (λ t. t.now) texts.now) result ≡ directories (rows_of (found_of found.now)) }
{
    found.get_raw("DIR")
}
