//! The arguments as a command.
ghost use Rattle.std.specs.Prelude.{◌≡◌, [], map, IfErr, IfOk};
ghost use Rattle.std.specs.String.{string_bytes};
ghost use Rattle.clap.specs.Words.{fault_of, first_of, found_of, kind_of, matches_of, rows_of};
ghost use Rattle.root_words.specs.Faults.{FitsKind, FitsRefusal, Gives, rejection_of, rejects};
ghost use Rattle.root_words.specs.Language.{root_app};
ghost use Rattle.root_words.specs.Words.{command_by, directories_by, judged, options_by, parsed, print_by, verdict_of};

use crate::command::{RootCommand, RootOptions, request_in};
use crate::fault::{Rejection, RootWordsFault};
use crate::found::{directories, first_of, has};
use crate::language::options;
use crate::rejection::{Rejected, rejection_by};
use clap::error::ErrorKind;
use clap::{ArgMatches, Error};
use command_words::refusal_line;
use lib_types::{NoMemory, Text, Texts};
use std::alloc::Global;

// An error of `clap` as a fault.
fn refusal(alloc: Global, error: &Error) -> RootWordsFault
    ensures { FitsKind (kind_of error.now) result }
{
    match error.kind() {
        ErrorKind::OutOfMemory => RootWordsFault::NoMemory,
        _ => match refusal_line(alloc, error) {
            Ok(line) => RootWordsFault::Refused(line),
            Err(NoMemory) => RootWordsFault::NoMemory,
        },
    }
}

// What `clap` finds in the arguments.
fn parse<'a>(alloc: Global, words: &'a [String]) -> Result<ArgMatches<'a>, RootWordsFault>
    ensures found { IfOk result (λ m. rows_of (found_of m) ≡ matches_of root_app (map string_bytes words.entry.now)) }
    ensures accepted { IfOk result (λ _. fault_of root_app (map string_bytes words.entry.now) ≡ []) }
    ensures refused { IfErr result (FitsRefusal (fault_of root_app (map string_bytes words.entry.now))) }
{
    let command = options(alloc)?;
    match command.try_get_matches_from(words) {
        Ok(matches) => Ok(matches),
        Err(error) => Err(refusal(alloc, &error)),
    }
}

// A copy of the first value of this option.
fn text_by(alloc: Global, found: &ArgMatches<'_>, id: &str) -> Result<Option<Text>, NoMemory>
    ensures { IfOk result (λ text. text ≡ first_of id.now (rows_of (found_of found.now))) }
{
    match first_of(found, id) {
        Some(text) => Ok(Some(Text::copy_of(alloc, text.as_bytes())?)),
        None => Ok(None),
    }
}

fn copies_of(alloc: Global, texts: &[&str]) -> Result<Texts, NoMemory>
    ensures { IfOk result (λ copies. copies ≡ map (λ t. t.now) texts.now) }
{
    let mut copies = Texts::new(alloc);
    for text in texts {
        copies.push(Text::copy_of(alloc, text.as_bytes())?)?;
    }
    Ok(copies)
}

// The directories of `-n`.
fn directories_by(alloc: Global, found: &ArgMatches<'_>) -> Result<Option<Texts>, NoMemory>
    ensures { IfOk result (λ dirs. dirs ≡ directories_by (rows_of (found_of found.now))) }
{
    if !has(found, "only") {
        return Ok(None);
    }
    match directories(found) {
        Some(texts) => Ok(Some(copies_of(alloc, texts)?)),
        None => Ok(None),
    }
}

fn options_by(alloc: Global, found: &ArgMatches<'_>) -> Result<RootOptions, NoMemory>
    ensures { IfOk result (λ options. options ≡ options_by (rows_of (found_of found.now))) }
{
    let root = text_by(alloc, found, "ROOT")?;
    let conf = text_by(alloc, found, "CONF")?;
    let cache = text_by(alloc, found, "CACHE")?;
    let aux = text_by(alloc, found, "FILE")?;
    let dirs = directories_by(alloc, found)?;
    Ok(RootOptions {
        root,
        no_cache: has(found, "no-cache"),
        no_links: has(found, "no-links"),
        conf,
        cache,
        dirs,
        verbose: has(found, "verbose"),
        aux,
        ignore_aux: has(found, "ignore-aux"),
        check: has(found, "check"),
    })
}

fn print_by(alloc: Global, found: &ArgMatches<'_>) -> Result<RootCommand, NoMemory>
    ensures { IfOk result (λ command. command ≡ print_by (rows_of (found_of found.now))) }
{
    let root = text_by(alloc, found, "ROOT")?;
    let cache = text_by(alloc, found, "CACHE")?;
    Ok(RootCommand::Print { root, cache })
}

fn command_by(alloc: Global, found: &ArgMatches<'_>) -> Result<RootCommand, NoMemory>
    ensures { IfOk result (λ command. command ≡ command_by (rows_of (found_of found.now))) }
{
    if has(found, "print") {
        print_by(alloc, found)
    } else {
        Ok(RootCommand::Run(options_by(alloc, found)?))
    }
}

// The rejection as a fault, which owns a copy of the argument.
fn reject(alloc: Global, rejected: Rejected<'_>) -> Result<RootCommand, RootWordsFault>
    ensures { Gives (rejects (rejection_of rejected.entry)) result }
{
    let argument = Text::copy_of(alloc, rejected.argument.as_bytes())?;
    let why = rejected.why;
    Err(RootWordsFault::Rejected(Rejection { argument, why }))
}

// The command of the options that `clap` found, or the rejection of one of them.
fn judged(alloc: Global, found: &ArgMatches<'_>) -> Result<RootCommand, RootWordsFault>
    ensures { Gives (judged (rows_of (found_of found.now))) result }
{
    match rejection_by(found) {
        Some(rejected) => reject(alloc, rejected),
        None => Ok(command_by(alloc, found)?),
    }
}

// The command of the arguments, as `clap` parses them.
#[tactic(auto, unfolding(crate::specs::Words::parsed), using(crate::proofs::Parsed::gives_refused, crate::proofs::Parsed::gives_judged))]
fn read(alloc: Global, words: &[String]) -> Result<RootCommand, RootWordsFault>
    ensures { Gives (parsed (map string_bytes words.now)) result }
{
    let found = parse(alloc, words)?;
    judged(alloc, &found)
}

/// The command of these arguments, which don't include the program's name.
pub fn command_of(alloc: Global, words: &[String]) -> Result<RootCommand, RootWordsFault>
    ensures { Gives (verdict_of (map string_bytes words.now)) result }
{
    match request_in(words) {
        Some(command) => Ok(command),
        None => read(alloc, words),
    }
}
