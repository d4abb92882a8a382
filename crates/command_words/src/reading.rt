//! The arguments as a command.
ghost use Rattle.std.specs.Prelude.{◌≡◌, true, Err, None, [], map, option_map, IfErr, IfOk};
ghost use Rattle.std.specs.List.{list_all};
ghost use Rattle.std.specs.String.{string_bytes};
ghost use Rattle.clap.specs.Words.{all_of, app_of, fault_of, first_of, found_of, kind_of, matches_of, rows_of, takes};
ghost use Rattle.command_words.specs.Language.{app, verb_in};
ghost use Rattle.command_words.specs.Words.{FitsKind, Gives, Rejects, abi_by, are_taken, caps_by, command_by, flag_by, form_by, form_of, keys_by, line_by, line_in, lookup_by, paths_by, resolve_by, root_by, size_by, tag_by, value_by, values_by, values_in};
ghost use Rattle.command_words.specs.Values.{is_value};
ghost use Rattle.command_words.specs.declared.fault.WordsFault.TheVariants as faults;

use crate::fault::WordsFault;
use crate::kinds::{Command, Form, Lookup, Resolve};
use crate::language::arguments_of;
use crate::line::CommandLine;
use crate::refusal::refusal_line;
use crate::values::{are_keys, caps_in, is_true, is_value, number};
use crate::verb::{Verb, verb_in};
use clap::error::ErrorKind;
use clap::{ArgMatches, Error};
use lib_types::{Abi, NoMemory, Text, Texts};
use std::alloc::Global;
use tree_face::Tag;

// The most libraries of a sample. The usage text of `ldconfig` (advice.rt) repeats it, because `concat!` takes only literals.
const SAMPLE_MAX: u16 = 20_000;

// What is said of a value that is `-` alone.
const DASH: &str = "- is not accepted as a value: use ./- for a file of this name";

// An error of `clap` as a fault.
fn refusal(alloc: Global, error: &Error) -> WordsFault
    ensures { FitsKind (kind_of error.now) result }
{
    match error.kind() {
        ErrorKind::OutOfMemory => WordsFault::NoMemory,
        _ => match refusal_line(alloc, error) {
            Ok(line) => WordsFault::Refused(line),
            Err(NoMemory) => WordsFault::NoMemory,
        },
    }
}

// What `clap` finds in the arguments of this command.
fn parse<'a>(
    alloc: Global,
    verb: Verb,
    arguments: &'a Vec<String>,
) -> Result<ArgMatches<'a>, WordsFault>
    ensures found { IfOk result (λ m. rows_of (found_of m) ≡ matches_of (app verb) (map string_bytes arguments.entry.now.items)) }
    ensures accepted { IfOk result (λ _. fault_of (app verb) (map string_bytes arguments.entry.now.items) ≡ []) }
    ensures refused { IfErr result (λ fault. Rejects fault → fault_of (app verb) (map string_bytes arguments.entry.now.items) ≡ [] → ⊥) }
    ensures only { IfErr result (λ fault. Rejects fault → takes (app verb) (map string_bytes arguments.entry.now.items) ≡ true → ⊥) }
{
    let command = arguments_of(alloc, verb)?;
    match command.try_get_matches_from(arguments.as_slice()) {
        Ok(matches) => Ok(matches),
        Err(error) => Err(refusal(alloc, &error)),
    }
}

// The first value of this argument.
#[tactic(auto, using(crate::proofs::Found::first_is))]
fn first_of<'a>(found: &ArgMatches<'a>, id: &str) -> Option<&'a str>
    ensures { option_map (λ t. t.now) result ≡ first_of id.now (rows_of (found_of found.now)) }
{
    found.get_str(id)
}

// The value of this argument, or its default `other` if it isn't given.
fn value_by<'a>(found: &ArgMatches<'a>, id: &str, other: &'a str) -> Option<&'a str>
    ensures { option_map (λ t. t.now) result ≡ value_by id.now other.now (rows_of (found_of found.now)) }
{
    let text = first_of(found, id).unwrap_or(other);
    if is_value(text) { Some(text) } else { None }
}

// The number of the temporary files.
fn tag_by(found: &ArgMatches<'_>) -> Result<Tag, WordsFault>
    ensures { Gives (tag_by (rows_of (found_of found.now))) result }
{
    match value_by(found, "tag", "0").and_then(number) {
        Some(tag) => Ok(Tag(tag)),
        None => Err(WordsFault::Value("--tag takes a number from 0 to 65535")),
    }
}

// How many libraries a sample has.
fn size_by(found: &ArgMatches<'_>) -> Result<u16, WordsFault>
    ensures { Gives (size_by (rows_of (found_of found.now))) result }
{
    match value_by(found, "N", "").and_then(number) {
        Some(n) if 1 <= n && n <= SAMPLE_MAX => Ok(n),
        _ => Err(WordsFault::Value("N is a number from 1 to 20000")),
    }
}

// The ABI, if one is given.
fn abi_by(found: &ArgMatches<'_>) -> Result<Option<Abi>, WordsFault>
    ensures { Gives (abi_by (rows_of (found_of found.now))) result }
{
    match first_of(found, "abi") {
        Some(word) => match Abi::of_word(word.as_bytes()) {
            Some(abi) => Ok(Some(abi)),
            None => Err(WordsFault::Value("--abi takes the name of an ABI, for example aarch64")),
        },
        None => Ok(None),
    }
}

fn caps_by(alloc: Global, found: &ArgMatches<'_>) -> Result<Texts, WordsFault>
    ensures { Gives (caps_by (rows_of (found_of found.now))) result }
{
    match value_by(found, "caps", "") {
        Some(list) => Ok(caps_in(alloc, list.as_bytes())?),
        None => Err(WordsFault::Value(DASH)),
    }
}

// Whether the flag is given.
fn flag_by(found: &ArgMatches<'_>, id: &str) -> bool
    ensures { result ≡ flag_by id.now (rows_of (found_of found.now)) }
{
    match first_of(found, id) {
        Some(text) => is_true(text),
        None => false,
    }
}

fn lookup_by(alloc: Global, found: &ArgMatches<'_>) -> Result<Lookup, WordsFault>
    ensures { Gives (lookup_by (rows_of (found_of found.now))) result }
{
    let Some(name) = value_by(found, "NAME", "") else {
        return Err(WordsFault::Value(DASH));
    };
    let abi = abi_by(found)?;
    let caps = caps_by(alloc, found)?;
    let name = Text::copy_of(alloc, name.as_bytes())?;
    let json = flag_by(found, "json");
    Ok(Lookup {
        name,
        abi,
        caps,
        json,
    })
}

// How the answer is written, if these flags can be given together.
fn form_of(list: bool, null: bool, json: bool, tree: bool) -> Option<Form>
    ensures { result ≡ form_of list null json tree }
{
    if list {
        if json || tree {
            return None;
        }
        let end = if null { 0 } else { b'\n' };
        return Some(Form::Files { end });
    }
    if null {
        return None;
    }
    match (json, tree) {
        (true, false) => Some(Form::Json),
        (false, true) => Some(Form::Tree),
        (false, false) => Some(Form::Listing),
        (true, true) => None,
    }
}

fn form_by(found: &ArgMatches<'_>) -> Result<Form, WordsFault>
    ensures { Gives (form_by (rows_of (found_of found.now))) result }
{
    let list = flag_by(found, "list");
    let null = flag_by(found, "null");
    let json = flag_by(found, "json");
    match form_of(list, null, json, flag_by(found, "tree")) {
        Some(form) => Ok(form),
        None => Err(WordsFault::Value(
            "-0 is only for --list, and at most one of --list, --json and --tree is given",
        )),
    }
}

// The value of this argument, empty if it isn't given.
fn text_by(alloc: Global, found: &ArgMatches<'_>, id: &str) -> Result<Text, WordsFault>
    ensures { Gives (value_by id.now [] (rows_of (found_of found.now))) result }
{
    match value_by(found, id, "") {
        Some(text) => Ok(Text::copy_of(alloc, text.as_bytes())?),
        None => Err(WordsFault::Value(DASH)),
    }
}

// All values of this argument.
#[tactic(auto, using(crate::proofs::Found::all_are))]
fn all_of<'m, 'a>(found: &'m ArgMatches<'a>, id: &str) -> Option<&'m [&'a str]>
    ensures { option_map (λ texts. map (λ t. t.now) texts.now) result ≡ all_of id.now (rows_of (found_of found.now)) }
{
    found.get_raw(id)
}

fn are_values(texts: &[&str]) -> bool
    ensures { result ≡ list_all is_value (map (λ t. t.now) texts.now) }
{
    for text in texts {
        if !is_value(text) {
            return false;
        }
    }
    true
}

fn copies_of(alloc: Global, texts: &[&str]) -> Result<Texts, NoMemory>
    ensures { IfOk result (λ copies. copies ≡ map (λ t. t.now) texts.now) }
{
    let mut copies = Texts::new(alloc);
    for text in texts {
        copies.push(Text::copy_of(alloc, text.as_bytes())?)?;
    }
    Ok(copies)
}

// All values of this argument, none if it isn't given.
fn texts_by(alloc: Global, found: &ArgMatches<'_>, id: &str) -> Result<Texts, WordsFault>
    ensures { Gives (values_by id.now (rows_of (found_of found.now))) result }
{
    match all_of(found, id) {
        Some(texts) if are_values(texts) => Ok(copies_of(alloc, texts)?),
        Some(_) => Err(WordsFault::Value(DASH)),
        None => Ok(Texts::new(alloc)),
    }
}

// The keys of the layers' manifests.
fn keys_by(alloc: Global, found: &ArgMatches<'_>) -> Result<Texts, WordsFault>
    ensures { Gives (keys_by (rows_of (found_of found.now))) result }
{
    let keys = texts_by(alloc, found, "KEY")?;
    if are_keys(keys.as_slice()) {
        Ok(keys)
    } else {
        Err(WordsFault::Value("layers takes 1 to 64 files, each KEY with 1 to 4095 bytes"))
    }
}

// The programs' paths. With `--all` none are given.
fn paths_by(alloc: Global, found: &ArgMatches<'_>) -> Result<Option<Texts>, WordsFault>
    ensures { Gives (paths_by (rows_of (found_of found.now))) result }
{
    let all = flag_by(found, "all");
    let paths = texts_by(alloc, found, "PATH")?;
    match (all, paths.is_empty()) {
        (true, true) => Ok(None),
        (false, false) => Ok(Some(paths)),
        (true, false) => Err(WordsFault::Value("--all takes no PATH")),
        (false, true) => Err(WordsFault::Value("resolve takes PATH.. or --all")),
    }
}

fn resolve_by(alloc: Global, found: &ArgMatches<'_>) -> Result<Resolve, WordsFault>
    ensures { Gives (resolve_by (rows_of (found_of found.now))) result }
{
    let paths = paths_by(alloc, found)?;
    let caps = caps_by(alloc, found)?;
    let library_path = text_by(alloc, found, "library-path")?;
    let platform = text_by(alloc, found, "platform")?;
    let secure = flag_by(found, "secure");
    let form = form_by(found)?;
    Ok(Resolve {
        paths,
        caps,
        library_path,
        platform,
        secure,
        form,
    })
}

fn command_by(alloc: Global, verb: Verb, found: &ArgMatches<'_>) -> Result<Command, WordsFault>
    ensures { Gives (command_by verb (rows_of (found_of found.now))) result }
{
    match verb {
        Verb::Update => tag_by(found).map(|tag| Command::Update { tag }),
        Verb::Batch => tag_by(found).map(|tag| Command::Batch { tag }),
        Verb::Layers => Ok(Command::Layers {
            keys: keys_by(alloc, found)?,
        }),
        Verb::Sample => size_by(found).map(|n| Command::Sample { n }),
        Verb::Print => Ok(Command::Print {
            json: flag_by(found, "json"),
        }),
        Verb::Lookup => Ok(Command::Lookup(lookup_by(alloc, found)?)),
        Verb::Resolve => Ok(Command::Resolve(resolve_by(alloc, found)?)),
    }
}

// The directory that is asked, if one is given.
fn root_by(alloc: Global, found: &ArgMatches<'_>) -> Result<Option<Text>, WordsFault>
    ensures { Gives (root_by (rows_of (found_of found.now))) result }
{
    match first_of(found, "ROOT") {
        Some(text) if is_value(text) => Ok(Some(Text::copy_of(alloc, text.as_bytes())?)),
        Some(_) => Err(WordsFault::Value(DASH)),
        None => Ok(None),
    }
}

fn line_by(alloc: Global, verb: Verb, found: &ArgMatches<'_>) -> Result<CommandLine, WordsFault>
    ensures { Gives (line_by verb (rows_of (found_of found.now))) result }
{
    let command = command_by(alloc, verb, found)?;
    let root = root_by(alloc, found)?;
    Ok(CommandLine { command, root })
}

/// The command line of these arguments, which don't include the program's name.
#[tactic(auto, unfolding(crate::specs::Words::are_taken, crate::specs::Words::line_in))]
pub fn line_of(alloc: Global, arguments: &Vec<String>) -> Result<CommandLine, WordsFault>
    ensures line { Gives (line_in (map string_bytes arguments.now.items)) result }
    ensures no_command { verb_in (map string_bytes arguments.now.items) ≡ None → result ≡ Err faults.NoCommand }
    ensures only { IfErr result (λ fault. Rejects fault → are_taken (map string_bytes arguments.now.items) ≡ true
        → values_in (map string_bytes arguments.now.items) ≡ None) }
{
    let Some(verb) = verb_in(arguments) else {
        return Err(WordsFault::NoCommand);
    };
    let found = parse(alloc, verb, arguments)?;
    line_by(alloc, verb, &found)
}
