//! What the options ask for.
ghost use Rattle.std.specs.Prelude.{◌≡◌, map};
ghost use Rattle.std.specs.Str.{bytes_eq};
ghost use Rattle.std.specs.String.{string_bytes};
ghost use Rattle.root_words.specs.Requests.{begins_with_dash, is_root_command, request_in, request_of};

use lib_types::{Text, Texts};

/// An update of a directory, as its options describe it.
#[derive(Drop)]
pub struct RootOptions {
    /// `-r`: the directory that is the image.
    pub root: Option<Text>,
    /// `-N`: builds no cache.
    pub no_cache: bool,
    /// `-X`: makes no links.
    pub no_links: bool,
    /// `-f`: the conf file, a path in the image.
    pub conf: Option<Text>,
    /// `-C`: the cache file, a path in the image.
    pub cache: Option<Text>,
    /// `-n`: processes only these directories, of which there is one at least.
    pub dirs: Option<Texts>,
    /// `-v`: prints the search directories and the links.
    pub verbose: bool,
    /// `--aux-cache`: the auxiliary cache, a path on this machine.
    pub aux: Option<Text>,
    /// `-i`: does not read the auxiliary cache.
    pub ignore_aux: bool,
    /// `--check`: writes nothing, and lists what would change.
    pub check: bool,
}

/// What the arguments ask for.
#[derive(Drop)]
pub enum RootCommand {
    /// To print the usage text.
    Help,
    /// To print the version.
    Version,
    /// To print the cache of the image at `root`, or the file `cache`. One of them is given.
    Print {
        root: Option<Text>,
        cache: Option<Text>,
    },
    /// To update a directory.
    Run(RootOptions),
}

/// Whether the argument is this word.
pub(crate) fn is_word(argument: &str, word: &str) -> bool
    ensures { result ≡ bytes_eq argument.now word.now }
{
    argument.as_bytes() == word.as_bytes()
}

fn begins_with_dash(argument: &str) -> bool
    ensures { result ≡ begins_with_dash argument.now }
{
    argument.as_bytes().starts_with(b"-")
}

/// Whether these are the arguments of a root command: the first begins with `-`, and they are not `-p` alone.
pub fn is_root_command(words: &[String]) -> bool
    ensures { result ≡ is_root_command (map string_bytes words.now) }
{
    if words.is_empty() {
        return false;
    }
    let first = words[0].as_str();
    begins_with_dash(first) && !(words.len() == 1 && is_word(first, "-p"))
}

// The command of a single argument that asks for the usage text or the version.
fn request_of(word: &str) -> Option<RootCommand>
    ensures { result ≡ request_of word.now }
{
    if is_word(word, "-?") || is_word(word, "--help") {
        Some(RootCommand::Help)
    } else if is_word(word, "-V") || is_word(word, "--version") {
        Some(RootCommand::Version)
    } else {
        None
    }
}

/// The usage text or the version, if the arguments ask for one of them and nothing else.
pub(crate) fn request_in(words: &[String]) -> Option<RootCommand>
    ensures { result ≡ request_in (map string_bytes words.now) }
{
    if words.len() == 1 {
        request_of(words[0].as_str())
    } else {
        None
    }
}
