//! Why the arguments are not a command.
ghost use Rattle.std.specs.Prelude.{◌≡◌};
ghost use Rattle.command_words.specs.declared.fault.WordsFault.TheVariants as faults;

use lib_types::{NoMemory, Text};
use std::alloc::AllocError;

/// Why the arguments are not a command.
#[derive(Drop)]
pub enum WordsFault {
    /// The first one is not a command.
    NoCommand,
    /// `clap` rejects one of them. Its line names the argument.
    Refused(Text),
    /// A value is rejected. The text names the argument, and says what it takes.
    Value(&'static str),
    NoMemory,
}

impl From<NoMemory> for WordsFault {
    ghost from_gives = { λ _ e. e ≡ faults.NoMemory };

    fn from(_: NoMemory) -> Self {
        WordsFault::NoMemory
    }
}

impl From<AllocError> for WordsFault {
    ghost from_gives = { λ _ e. e ≡ faults.NoMemory };

    fn from(_: AllocError) -> Self {
        WordsFault::NoMemory
    }
}
