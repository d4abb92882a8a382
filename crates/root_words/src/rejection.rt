//! What is rejected among the options that `clap` takes.
ghost use Rattle.std.specs.Prelude.{◌≡◌, Some, map, option_map};
ghost use Rattle.std.specs.List.{list_any};
ghost use Rattle.clap.specs.Words.{found_of, rows_of};
ghost use Rattle.root_words.specs.Faults.{because, rejection_of};
ghost use Rattle.root_words.specs.Words.{dash_among, format_among, has_dash_directory, is_dash, is_dash_value, link_among, loose_directory, no_root, only_nothing, paths_rejected, rejection_by, request_among, update_among, update_with_print};

use crate::command::is_word;
use crate::fault::Why;
use crate::found::{directories, first_of, has, has_value};
use clap::ArgMatches;

/// An argument that is rejected.
#[derive(Clone, Copy)]
pub(crate) struct Rejected<'a> {
    pub(crate) argument: &'a str,
    pub(crate) why: Why,
}

fn reject<'a>(why: Why, argument: &'a str) -> Option<Rejected<'a>>
    ensures { option_map rejection_of result ≡ Some (because why argument.entry.now) }
{
    Some(Rejected { argument, why })
}

// The option that asks for the usage text or the version.
fn request_among<'a>(found: &ArgMatches<'a>) -> Option<&'a str>
    ensures { option_map (λ t. t.now) result ≡ request_among (rows_of (found_of found.now)) }
{
    if has(found, "help") {
        Some("--help")
    } else if has(found, "version") {
        Some("--version")
    } else {
        None
    }
}

fn link_among<'a>(found: &ArgMatches<'a>) -> Option<&'a str>
    ensures { option_map (λ t. t.now) result ≡ link_among (rows_of (found_of found.now)) }
{
    if has(found, "link") { Some("-l") } else { None }
}

// A format other than `new`.
fn format_among<'a>(found: &ArgMatches<'a>) -> Option<&'a str>
    ensures { option_map (λ t. t.now) result ≡ format_among (rows_of (found_of found.now)) }
{
    let format = first_of(found, "FORMAT")?;
    if is_word(format, "new") {
        None
    } else {
        Some(format)
    }
}

// An option that says how to update.
fn update_among<'a>(found: &ArgMatches<'a>) -> Option<&'a str>
    ensures { option_map (λ t. t.now) result ≡ update_among (rows_of (found_of found.now)) }
{
    if has(found, "no-cache") {
        Some("-N")
    } else if has(found, "no-links") {
        Some("-X")
    } else if has(found, "only") {
        Some("-n")
    } else if has(found, "check") {
        Some("--check")
    } else if has(found, "verbose") {
        Some("-v")
    } else if has(found, "ignore-aux") {
        Some("-i")
    } else if has_value(found, "CONF") {
        Some("-f")
    } else if has_value(found, "FILE") {
        Some("--aux-cache")
    } else {
        None
    }
}

// An option of an update, together with `-p`.
fn update_with_print<'a>(found: &ArgMatches<'a>) -> Option<&'a str>
    ensures { option_map (λ t. t.now) result ≡ update_with_print (rows_of (found_of found.now)) }
{
    if has(found, "print") {
        update_among(found)
    } else {
        None
    }
}

fn is_dash(text: &str) -> bool
    ensures { result ≡ is_dash text.now }
{
    is_word(text, "-")
}

fn is_dash_value(found: &ArgMatches<'_>, id: &str) -> bool
    ensures { result ≡ is_dash_value id.now (rows_of (found_of found.now)) }
{
    match first_of(found, id) {
        Some(text) => is_dash(text),
        None => false,
    }
}

fn has_dash(texts: &[&str]) -> bool
    ensures { result ≡ list_any is_dash (map (λ t. t.now) texts.now) }
{
    for text in texts {
        if is_dash(text) {
            return true;
        }
    }
    false
}

fn has_dash_directory(found: &ArgMatches<'_>) -> bool
    ensures { result ≡ has_dash_directory (rows_of (found_of found.now)) }
{
    match directories(found) {
        Some(texts) => has_dash(texts),
        None => false,
    }
}

// A value that is `-` alone.
fn dash_among<'a>(found: &ArgMatches<'a>) -> Option<&'a str>
    ensures { option_map (λ t. t.now) result ≡ dash_among (rows_of (found_of found.now)) }
{
    if is_dash_value(found, "ROOT")
        || is_dash_value(found, "CONF")
        || is_dash_value(found, "CACHE")
        || is_dash_value(found, "FILE")
        || has_dash_directory(found)
    {
        Some("-")
    } else {
        None
    }
}

// A directory without `-n`.
fn loose_directory<'a>(found: &ArgMatches<'a>) -> Option<&'a str>
    ensures { option_map (λ t. t.now) result ≡ loose_directory (rows_of (found_of found.now)) }
{
    if has(found, "only") {
        None
    } else {
        first_of(found, "DIR")
    }
}

// `-n` without a directory.
fn only_nothing<'a>(found: &ArgMatches<'a>) -> Option<&'a str>
    ensures { option_map (λ t. t.now) result ≡ only_nothing (rows_of (found_of found.now)) }
{
    if has(found, "only") && !has_value(found, "DIR") {
        Some("-n")
    } else {
        None
    }
}

// No directory to work on, and no cache file to print.
fn no_root<'a>(found: &ArgMatches<'a>) -> Option<&'a str>
    ensures { option_map (λ t. t.now) result ≡ no_root (rows_of (found_of found.now)) }
{
    if has_value(found, "ROOT")
        || has(found, "only")
        || (has(found, "print") && has_value(found, "CACHE"))
    {
        None
    } else {
        Some("-r")
    }
}

// What is rejected among the values and directories.
fn paths_rejected<'a>(found: &ArgMatches<'a>) -> Option<Rejected<'a>>
    ensures { option_map rejection_of result ≡ paths_rejected (rows_of (found_of found.now)) }
{
    if let Some(argument) = dash_among(found) {
        return reject(Why::Dash, argument);
    }
    if let Some(argument) = loose_directory(found) {
        return reject(Why::NeedsOnly, argument);
    }
    if let Some(argument) = only_nothing(found) {
        return reject(Why::NoDirectory, argument);
    }
    reject(Why::NoRoot, no_root(found)?)
}

/// The first argument that is rejected.
pub(crate) fn rejection_by<'a>(found: &ArgMatches<'a>) -> Option<Rejected<'a>>
    ensures { option_map rejection_of result ≡ rejection_by (rows_of (found_of found.now)) }
{
    if let Some(argument) = request_among(found) {
        return reject(Why::NotAlone, argument);
    }
    if let Some(argument) = link_among(found) {
        return reject(Why::Link, argument);
    }
    if let Some(argument) = format_among(found) {
        return reject(Why::Format, argument);
    }
    if let Some(argument) = update_with_print(found) {
        return reject(Why::NotWithPrint, argument);
    }
    paths_rejected(found)
}
