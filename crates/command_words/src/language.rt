//! The arguments of each command, as `clap` reads them.
ghost use Rattle.std.specs.Prelude.{◌≡◌, false, IfOk};
ghost use Rattle.clap.specs.Words.{app_of, rule_of, with_rule};
ghost use Rattle.command_words.specs.Language.{any_words_rule, app, asking, flag_rule, letter_rule, loaded, option_rule, root_rule, searched, tagged, without_requests, word_rule, words_rule};

use crate::verb::Verb;
use clap::builder::ValueParser;
use clap::{Arg, ArgAction, Command};
use std::alloc::{AllocError, Global};

// An argument that is needed, without a name.
fn word<'a>(alloc: Global, id: &'a str) -> Arg<'a>
    ensures rule { rule_of result ≡ word_rule id.entry.now }
    ensures local { result.global ≡ false }
{
    Arg::new(alloc, id).required(true)
}

// One argument or more, without a name.
fn words<'a>(alloc: Global, id: &'a str) -> Arg<'a>
    ensures rule { rule_of result ≡ words_rule id.entry.now }
    ensures local { result.global ≡ false }
{
    word(alloc, id).action(ArgAction::Append)
}

// Any number of arguments, without a name.
fn any_words<'a>(alloc: Global, id: &'a str) -> Arg<'a>
    ensures rule { rule_of result ≡ any_words_rule id.entry.now }
    ensures local { result.global ≡ false }
{
    Arg::new(alloc, id).action(ArgAction::Append)
}

// An option with one value.
fn option<'a>(alloc: Global, id: &'a str) -> Arg<'a>
    ensures rule { rule_of result ≡ option_rule id.entry.now }
    ensures local { result.global ≡ false }
{
    Arg::new(alloc, id).long(id)
}

// An option without a value.
fn flag<'a>(alloc: Global, id: &'a str) -> Arg<'a>
    ensures rule { rule_of result ≡ flag_rule id.entry.now }
    ensures local { result.global ≡ false }
{
    option(alloc, id).action(ArgAction::SetTrue)
}

// An option of one character, without a value.
fn letter<'a>(alloc: Global, id: &'a str, short: char) -> Arg<'a>
    ensures rule { rule_of result ≡ letter_rule id.entry.now short }
    ensures local { result.global ≡ false }
{
    Arg::new(alloc, id).action(ArgAction::SetTrue).short(short)
}

// The option that names a directory, by a letter or a name.
fn root<'a>(alloc: Global) -> Arg<'a>
    ensures rule { rule_of result ≡ root_rule }
    ensures local { result.global ≡ false }
{
    Arg::new(alloc, "ROOT")
        .value_parser(ValueParser::NonEmptyString)
        .short('r')
        .long("root")
}

// A command without arguments, and without the options that `clap` adds.
fn bare<'a>(alloc: Global) -> Command<'a>
    ensures { app_of result ≡ without_requests }
{
    Command::new(alloc, "ldconfig")
        .disable_help_flag(true)
        .disable_version_flag(true)
}

// The command with one more argument.
fn with<'a>(command: Command<'a>, arg: Arg<'a>) -> Result<Command<'a>, AllocError>
    requires { arg.global ≡ false }
    ensures { IfOk result (λ c. app_of c ≡ with_rule (app_of command.entry) (rule_of arg.entry)) }
{
    command.arg(arg)
}

// A command that only reads, and takes a directory with `-r`.
fn asking<'a>(alloc: Global) -> Result<Command<'a>, AllocError>
    ensures { IfOk result (λ c. app_of c ≡ asking) }
{
    with(bare(alloc), root(alloc))
}

#[tactic(auto, unfolding(crate::specs::Language::app))]
fn print<'a>(alloc: Global) -> Result<Command<'a>, AllocError>
    ensures { IfOk result (λ c. app_of c ≡ app Verb.Print) }
{
    with(asking(alloc)?, flag(alloc, "json"))
}

// A command that takes the number of its temporary files.
fn tagged<'a>(alloc: Global) -> Result<Command<'a>, AllocError>
    ensures { IfOk result (λ c. app_of c ≡ tagged) }
{
    with(bare(alloc), option(alloc, "tag"))
}

#[tactic(auto, unfolding(crate::specs::Language::app))]
fn layers<'a>(alloc: Global) -> Result<Command<'a>, AllocError>
    ensures { IfOk result (λ c. app_of c ≡ app Verb.Layers) }
{
    with(bare(alloc), words(alloc, "KEY"))
}

#[tactic(auto, unfolding(crate::specs::Language::app))]
fn sample<'a>(alloc: Global) -> Result<Command<'a>, AllocError>
    ensures { IfOk result (λ c. app_of c ≡ app Verb.Sample) }
{
    with(bare(alloc), word(alloc, "N"))
}

#[tactic(auto, unfolding(crate::specs::Language::app))]
fn lookup<'a>(alloc: Global) -> Result<Command<'a>, AllocError>
    ensures { IfOk result (λ c. app_of c ≡ app Verb.Lookup) }
{
    let named = with(asking(alloc)?, word(alloc, "NAME"))?;
    let of_abi = with(named, option(alloc, "abi"))?;
    let with_caps = with(of_abi, option(alloc, "caps"))?;
    with(with_caps, flag(alloc, "json"))
}

// Programs for processors with some hwcaps names.
fn searched<'a>(alloc: Global) -> Result<Command<'a>, AllocError>
    ensures { IfOk result (λ c. app_of c ≡ searched) }
{
    let named = with(asking(alloc)?, any_words(alloc, "PATH"))?;
    let with_all = with(named, flag(alloc, "all"))?;
    with(with_all, option(alloc, "caps"))
}

// The same, with what the loader is given beside the files.
fn loaded<'a>(alloc: Global) -> Result<Command<'a>, AllocError>
    ensures { IfOk result (λ c. app_of c ≡ loaded) }
{
    let with_library_path = with(searched(alloc)?, option(alloc, "library-path"))?;
    let with_platform = with(with_library_path, option(alloc, "platform"))?;
    with(with_platform, flag(alloc, "secure"))
}

#[tactic(auto, unfolding(crate::specs::Language::app))]
fn resolve<'a>(alloc: Global) -> Result<Command<'a>, AllocError>
    ensures { IfOk result (λ c. app_of c ≡ app Verb.Resolve) }
{
    let with_list = with(loaded(alloc)?, flag(alloc, "list"))?;
    let with_null = with(with_list, letter(alloc, "null", '0'))?;
    let with_json = with(with_null, flag(alloc, "json"))?;
    with(with_json, flag(alloc, "tree"))
}

/// The arguments of this command.
#[tactic(auto, unfolding(crate::specs::Language::app))]
pub(crate) fn arguments_of<'a>(alloc: Global, verb: Verb) -> Result<Command<'a>, AllocError>
    ensures { IfOk result (λ c. app_of c ≡ app verb) }
{
    match verb {
        Verb::Update | Verb::Batch => tagged(alloc),
        Verb::Layers => layers(alloc),
        Verb::Sample => sample(alloc),
        Verb::Print => print(alloc),
        Verb::Lookup => lookup(alloc),
        Verb::Resolve => resolve(alloc),
    }
}
