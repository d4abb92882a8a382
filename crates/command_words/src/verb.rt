//! The first argument.
ghost use Rattle.std.specs.Prelude.{◌≡◌, map};
ghost use Rattle.std.specs.Str.{bytes_eq};
ghost use Rattle.std.specs.String.{string_bytes};
ghost use Rattle.command_words.specs.Language.{help_in, verb_in, verb_of};

/// A command's name.
#[derive(Clone, Copy, Debug, PartialEq, Eq)]
pub enum Verb {
    Update,
    Batch,
    Layers,
    Sample,
    Print,
    Lookup,
    Resolve,
}

fn is_word(argument: &str, word: &str) -> bool
    ensures { result ≡ bytes_eq argument.now word.now }
{
    argument.as_bytes() == word.as_bytes()
}

// The command of this name.
fn verb_of(word: &str) -> Option<Verb>
    ensures { result ≡ verb_of word.now }
{
    if is_word(word, "update") {
        Some(Verb::Update)
    } else if is_word(word, "batch") {
        Some(Verb::Batch)
    } else if is_word(word, "layers") {
        Some(Verb::Layers)
    } else if is_word(word, "sample") {
        Some(Verb::Sample)
    } else if is_word(word, "print") || is_word(word, "-p") {
        Some(Verb::Print)
    } else if is_word(word, "lookup") {
        Some(Verb::Lookup)
    } else if is_word(word, "resolve") {
        Some(Verb::Resolve)
    } else {
        None
    }
}

/// The command that the first argument names.
pub(crate) fn verb_in(arguments: &Vec<String>) -> Option<Verb>
    ensures { result ≡ verb_in (map string_bytes arguments.now.items) }
{
    if arguments.is_empty() {
        return Some(Verb::Update);
    }
    verb_of(arguments[0].as_str())
}

/// The command whose usage text is asked for: by its name and `--help`, these two words alone.
pub fn help_of(arguments: &[String]) -> Option<Verb>
    ensures { result ≡ help_in (map string_bytes arguments.now) }
{
    if arguments.len() == 2 && is_word(arguments[1].as_str(), "--help") {
        verb_of(arguments[0].as_str())
    } else {
        None
    }
}
