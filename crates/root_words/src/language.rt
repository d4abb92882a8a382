//! The options, as `clap` reads them.
ghost use Rattle.std.specs.Prelude.{◌≡◌, false, IfOk};
ghost use Rattle.clap.specs.Words.{app_of, rule_of, with_rule};
ghost use Rattle.root_words.specs.Language.{bare, directory_rule, flag_rule, long, root_app, short, value_rule, with_manners, with_parts, with_paths, with_prints};

use clap::builder::ValueParser;
use clap::{Arg, ArgAction, Command};
use std::alloc::{AllocError, Global};

// A value that is not empty.
fn value<'a>(alloc: Global, id: &'a str) -> Arg<'a>
    ensures rule { rule_of result ≡ value_rule id.entry.now }
    ensures local { result.global ≡ false }
{
    Arg::new(alloc, id).value_parser(ValueParser::NonEmptyString)
}

// An option with one value, by a letter.
fn value_letter<'a>(alloc: Global, id: &'a str, letter: char) -> Arg<'a>
    ensures rule { rule_of result ≡ short letter (value_rule id.entry.now) }
    ensures local { result.global ≡ false }
{
    Arg::new(alloc, id)
        .value_parser(ValueParser::NonEmptyString)
        .short(letter)
}

// An option with one value, by a name.
fn value_name<'a>(alloc: Global, id: &'a str, name: &'a str) -> Arg<'a>
    ensures rule { rule_of result ≡ long name.entry.now (value_rule id.entry.now) }
    ensures local { result.global ≡ false }
{
    Arg::new(alloc, id)
        .value_parser(ValueParser::NonEmptyString)
        .long(name)
}

// An option with one value, by a letter or a name.
fn value_option<'a>(alloc: Global, id: &'a str, letter: char, name: &'a str) -> Arg<'a>
    ensures rule { rule_of result ≡ long name.entry.now (short letter (value_rule id.entry.now)) }
    ensures local { result.global ≡ false }
{
    Arg::new(alloc, id)
        .value_parser(ValueParser::NonEmptyString)
        .short(letter)
        .long(name)
}

// An option without a value, by a letter.
fn flag_letter<'a>(alloc: Global, id: &'a str, letter: char) -> Arg<'a>
    ensures rule { rule_of result ≡ short letter (flag_rule id.entry.now) }
    ensures local { result.global ≡ false }
{
    Arg::new(alloc, id).action(ArgAction::SetTrue).short(letter)
}

// An option without a value, by a name.
fn flag_name<'a>(alloc: Global, id: &'a str, name: &'a str) -> Arg<'a>
    ensures rule { rule_of result ≡ long name.entry.now (flag_rule id.entry.now) }
    ensures local { result.global ≡ false }
{
    Arg::new(alloc, id).action(ArgAction::SetTrue).long(name)
}

// An option without a value, by a letter or a name.
fn flag_option<'a>(alloc: Global, id: &'a str, letter: char, name: &'a str) -> Arg<'a>
    ensures rule { rule_of result ≡ long name.entry.now (short letter (flag_rule id.entry.now)) }
    ensures local { result.global ≡ false }
{
    Arg::new(alloc, id)
        .action(ArgAction::SetTrue)
        .short(letter)
        .long(name)
}

// The directories, which are given without an option.
fn directories<'a>(alloc: Global) -> Arg<'a>
    ensures rule { rule_of result ≡ directory_rule }
    ensures local { result.global ≡ false }
{
    value(alloc, "DIR").action(ArgAction::Append)
}

// A command without arguments, and without the options that `clap` adds.
fn bare<'a>(alloc: Global) -> Command<'a>
    ensures { app_of result ≡ bare }
{
    Command::new(alloc, "ldconfig")
        .no_binary_name(true)
        .disable_help_flag(true)
        .disable_version_flag(true)
}

// The command with one more argument.
fn with<'a>(command: Command<'a>, arg: Arg<'a>) -> Result<Command<'a>, AllocError>
    requires { arg.global ≡ false }
    ensures { IfOk result (λ c. app_of c ≡ with_rule (app_of command.entry) (rule_of arg.entry)) }
{
    command.arg(arg)
}

fn with_paths<'a>(alloc: Global, command: Command<'a>) -> Result<Command<'a>, AllocError>
    ensures { IfOk result (λ c. app_of c ≡ with_paths (app_of command.entry)) }
{
    let with_root = with(command, value_option(alloc, "ROOT", 'r', "root"))?;
    let with_conf = with(with_root, value_letter(alloc, "CONF", 'f'))?;
    let with_cache = with(with_conf, value_letter(alloc, "CACHE", 'C'))?;
    with(with_cache, value_name(alloc, "FILE", "aux-cache"))
}

fn with_parts<'a>(alloc: Global, command: Command<'a>) -> Result<Command<'a>, AllocError>
    ensures { IfOk result (λ c. app_of c ≡ with_parts (app_of command.entry)) }
{
    let with_no_cache = with(command, flag_letter(alloc, "no-cache", 'N'))?;
    let with_no_links = with(with_no_cache, flag_letter(alloc, "no-links", 'X'))?;
    let with_only = with(with_no_links, flag_letter(alloc, "only", 'n'))?;
    with(with_only, flag_name(alloc, "check", "check"))
}

fn with_manners<'a>(alloc: Global, command: Command<'a>) -> Result<Command<'a>, AllocError>
    ensures { IfOk result (λ c. app_of c ≡ with_manners (app_of command.entry)) }
{
    let with_verbose = with(command, flag_option(alloc, "verbose", 'v', "verbose"))?;
    let ignore_aux = flag_option(alloc, "ignore-aux", 'i', "ignore-aux-cache");
    let with_ignore_aux = with(with_verbose, ignore_aux)?;
    let with_format = with(
        with_ignore_aux,
        value_option(alloc, "FORMAT", 'c', "format"),
    )?;
    with(with_format, flag_letter(alloc, "link", 'l'))
}

fn with_prints<'a>(alloc: Global, command: Command<'a>) -> Result<Command<'a>, AllocError>
    ensures { IfOk result (λ c. app_of c ≡ with_prints (app_of command.entry)) }
{
    let with_print = with(command, flag_option(alloc, "print", 'p', "print-cache"))?;
    let with_help = with(with_print, flag_option(alloc, "help", '?', "help"))?;
    let with_version = with(with_help, flag_option(alloc, "version", 'V', "version"))?;
    with(with_version, directories(alloc))
}

/// All options, and the directories.
#[tactic(auto, unfolding(crate::specs::Language::root_app))]
pub(crate) fn options<'a>(alloc: Global) -> Result<Command<'a>, AllocError>
    ensures { IfOk result (λ c. app_of c ≡ root_app) }
{
    let with_paths = with_paths(alloc, bare(alloc))?;
    let with_parts = with_parts(alloc, with_paths)?;
    let with_manners = with_manners(alloc, with_parts)?;
    with_prints(alloc, with_manners)
}
