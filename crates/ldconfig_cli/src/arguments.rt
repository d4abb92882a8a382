//! The arguments, with the command that they name.
ghost use Rattle.std.specs.Prelude.{◌≡◌, ◌≢◌, IfOk, IfSome, None, OnErr, option_copied, option_map};
ghost use Rattle.command_words.specs.Language.{verb_in};
ghost use Rattle.command_words.specs.Words.{command_in, root_in};
ghost use Rattle.ldconfig_cli.specs.Runs.{texts_of};

use command_words::{Command, CommandLine, WordsFault, line_of};
use lib_types::NoMemory;
use std::alloc::Global;
use std::marker::Model;

/// Arguments without the program's name, and the command that they name, if they name one. Contracts see the texts of the arguments.
#[derive(Drop)]
pub struct Arguments<'a> {
    words: &'a Vec<String>,
    line: Option<CommandLine>,
    fault: Option<WordsFault>,
}

impl<'a> Model for Arguments<'a> {
    ghost use Rattle.std.specs.Prelude.{◌≡◌, ℕ, List};
    ghost use Rattle.command_words.specs.Words.{line_in};
    ghost use Rattle.ldconfig_cli.specs.Runs.{texts_of};

    ghost Value = { List (List ℕ) };

    ghost view = { λ arguments. texts_of arguments.words.now };

    ghost invariant = { λ arguments. arguments.line ≡ line_in (texts_of arguments.words.now) };
}

impl<'a> Arguments<'a> {
    /// Reads the arguments with `clap`. Without arguments the command is `update`.
    pub fn read(alloc: Global, words: &'a Vec<String>) -> Result<Arguments<'a>, NoMemory>
        ensures texts { IfOk result (λ arguments. arguments ≡ texts_of words.now) }
        ensures named { OnErr result (verb_in (texts_of words.now) ≢ None) }
    {
        match line_of(alloc, words) {
            Ok(line) => Ok(Arguments {
                words,
                line: Some(line),
                fault: None,
            }),
            Err(WordsFault::NoMemory) => Err(NoMemory),
            Err(fault) => Ok(Arguments {
                words,
                line: None,
                fault: Some(fault),
            }),
        }
    }

    /// The command, if the arguments name one.
    pub fn command(&self) -> Option<&Command>
        ensures { option_copied result ≡ command_in self.now }
    {
        match &self.line {
            Some(line) => Some(&line.command),
            None => None,
        }
    }

    /// The first argument.
    pub fn first(&self) -> Option<&String> {
        self.words.first()
    }

    /// Why the arguments name no command, if they name none.
    pub fn fault(&self) -> Option<&WordsFault>
        ensures { IfSome result (λ _. command_in self.now ≡ None) }
    {
        match &self.line {
            Some(_) => None,
            None => self.fault.as_ref(),
        }
    }

    /// The directory that the command reads, if the arguments name one.
    pub fn root(&self) -> Option<&[u8]>
        ensures { option_map (λ root. root.now) result ≡ root_in self.now }
    {
        match &self.line {
            Some(line) => root_of(line),
            None => None,
        }
    }

    /// The command by value, without the arguments.
    pub fn into_command(self) -> Option<Command>
        ensures { result ≡ command_in self.entry }
    {
        let Arguments {
            words: _,
            line,
            fault: _,
        } = self;
        match line {
            Some(line) => Some(line.command),
            None => None,
        }
    }
}

fn root_of(line: &CommandLine) -> Option<&[u8]>
    ensures { option_map (λ root. root.now) result ≡ line.now.root }
{
    match &line.root {
        Some(root) => Some(root.as_bytes()),
        None => None,
    }
}
