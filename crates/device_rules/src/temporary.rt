//! The names of temporary files.
ghost use Rattle.std.specs.Prelude.{◌≡◌, ◌&&◌, ◌+◌, ◌%◌, ◌^◌, ◌++◌, length, IfOk, IfSome, MatchOption, List, ℕ, None, false, string_bytes};
ghost use Rattle.std.specs.Char.{is_ascii_digit};
ghost use Rattle.std.specs.Fmt.{decimal};
ghost use Rattle.std.specs.List.{list_all, position_or_len};
ghost use Rattle.lib_types.specs.Bytes.{is_byte};
ghost use Rattle.device_rules.specs.Temporary.{AreAtDot, IsMadeBy, is_number, temporary_name};

use crate::paths::following;
use std::alloc::AllocError;
use std::rt::Runtime;
use tree_face::Tag;

/// How many temporary names are tried if names are taken.
pub const MOST_NAMES: u64 = 100;

/// The numbers that no other running program has together.
#[derive(Clone, Copy)]
pub struct RunId {
    /// The process number, which shows a person what made a file.
    pub process: u32,
    /// A random number, because programs that don't see each other's processes can have equal process numbers.
    pub random: u64,
}

impl RunId {
    /// The numbers for another attempt, if the names with these are taken.
    pub fn turned(self, turn: u64) -> RunId
        ensures process { result.process ≡ self.process }
        ensures random { result.random ≡ (self.random + turn) % 2 ^ 64 }
    {
        RunId {
            process: self.process,
            random: self.random.wrapping_add(turn),
        }
    }
}

/// The name of this run's temporary file for the slot's file of this name.
pub fn temporary_path<R: Runtime>(
    rt: &R,
    path: &str,
    tag: Tag,
    run: RunId,
) -> Result<String<R::A>, AllocError>
    ensures { IfOk result (λ text. string_bytes text ≡ temporary_name path.now (decimal tag.0) (decimal run.process) (decimal run.random)) }
{
    let tag = tag.0;
    let process = run.process;
    let random = run.random;
    format!(in rt.alloc(); "{path}.tmp{tag}.{process}.{random}")
}

/// The process that made a file of this name, if it is a temporary file of the slot's file.
pub fn maker_of<'a>(name: &'a str, file: &str) -> Option<&'a str>
    ensures made { IfSome result (λ process. IsMadeBy file.now process.now name.now) }
    ensures none { result ≡ None → (process : List ℕ) → IsMadeBy file.now process name.now → ⊥ }
{
    let tail = following(name, file)?;
    let numbers = following(tail, ".tmp")?;
    let (tag, rest) = at_dot(numbers)?;
    let (process, random) = at_dot(rest)?;
    if are_numbers(tag, process, random) {
        Some(process)
    } else {
        None
    }
}

// The parts before and after the first dot.
#[tactic(auto, using(crate::proofs::NameParts::at_first))]
fn at_dot(text: &str) -> Option<(&str, &str)>
    ensures { MatchOption result (position_or_len (is_byte 46) text.now ≡ length text.now) (λ parts. AreAtDot text.now parts.0.now parts.1.now) }
{
    text.split_once('.')
}

fn are_numbers(tag: &str, process: &str, random: &str) -> bool
    ensures { result ≡ (is_number tag.now && is_number process.now && is_number random.now) }
{
    is_number(tag) && is_number(process) && is_number(random)
}

// Whether the text is a decimal number.
fn is_number(text: &str) -> bool
    ensures { result ≡ is_number text.now }
{
    !text.is_empty() && are_digits(text.as_bytes())
}

fn are_digits(bytes: &[u8]) -> bool
    ensures { result ≡ list_all is_ascii_digit bytes.now }
{
    bytes.iter().all(|b| b.is_ascii_digit())
}
