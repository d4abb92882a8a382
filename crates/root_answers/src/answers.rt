//! The texts and the statuses.
ghost use Rattle.std.specs.Prelude.{◌≡◌, ◌++◌, IfOk, IsErrOf, OnErr, OnOk};
ghost use Rattle.command_status.specs.declared.status.Status.TheVariants.{Done};
ghost use Rattle.root_answers.specs.Answers.{Answers, cache_line, check_text, verbose_text};
ghost use Rattle.root_update.specs.Check.{status_of_changes};

use command_status::Status;
use ldconfig_core::Looked;
use lib_types::{NoMemory, Text};
use link_plan::Planned;
use root_update::{RootChanges, status_of_changes};
use search_listing::{listing, planned_lines};
use std::alloc::Global;
use tree_face::{Sink, put_all};

/// What is shown of an update.
#[derive(Clone, Copy)]
pub struct Shown<'f> {
    /// What the paths begin with.
    pub front: &'f [u8],
    /// Whether the directories that were searched are listed with their libraries.
    pub verbose: bool,
    /// The name of the cache file.
    pub cache: &'f [u8],
}

// What `-v` asks for.
fn verbose_text(
    alloc: Global,
    shown: Shown<'_>,
    looked: &Looked,
    links: &[Planned],
) -> Result<Text, NoMemory>
    ensures { IfOk result (λ text. text ≡ verbose_text shown.entry.front.now shown.entry.verbose looked.now links.now) }
{
    if !shown.verbose {
        return Ok(Text::from_vec(Vec::new(alloc)));
    }
    listing(
        alloc,
        shown.front,
        &looked.conf,
        &looked.dirs.places,
        &looked.bests,
        links,
    )
}

// Adds the line of the cache, if it would change.
fn add_cache_line(text: &mut Vec<u8>, changes: bool, name: &[u8]) -> Result<(), NoMemory>
    ensures { OnOk result (text.new.items ≡ text.old.items ++ cache_line changes name.now) }
{
    if changes {
        text.extend_from_slice(b"cache: ")?;
        text.extend_from_slice(name)?;
        text.push(b'\n')?;
    }
    Ok(())
}

// The text of a check.
fn check_text(alloc: Global, shown: Shown<'_>, changes: &RootChanges) -> Result<Vec<u8>, NoMemory>
    ensures { IfOk result (λ text. text.items ≡ check_text shown.entry.front.now shown.entry.verbose changes.now shown.entry.cache.now) }
{
    let links = changes.links.as_slice();
    let listed = verbose_text(alloc, shown, &changes.looked, links)?;
    let lines = planned_lines(alloc, shown.front, links)?;
    let mut text = Vec::from_slice(alloc, listed.as_bytes())?;
    text.extend_from_slice(lines.as_bytes())?;
    add_cache_line(&mut text, changes.cache, shown.cache)?;
    Ok(text)
}

// Writes a text. The status is this one, unless the output fails.
fn write_answer<O: Sink>(text: &[u8], status: Status, output: &mut O) -> Status
    ensures { Answers text.now status result (O.state output.old) (O.state output.new) }
{
    match put_all(output, text) {
        Ok(()) => status,
        Err(_) => Status::OutputFault,
    }
}

/// Ends a check that found these changes: writes what `-v` asks for, a line for each link that would be made, and one for the cache, with its
/// name, if it would change. The status is `Missing` if anything would change. If memory runs out, nothing is written.
pub fn answer_check<O: Sink>(
    alloc: Global,
    shown: Shown<'_>,
    changes: &RootChanges,
    output: &mut O,
) -> Result<Status, NoMemory>
    ensures answers { IfOk result (λ status. Answers (check_text shown.entry.front.now shown.entry.verbose changes.now shown.entry.cache.now) (status_of_changes changes.now) status (O.state output.old) (O.state output.new)) }
    ensures no_memory { OnErr result (O.state output.new ≡ O.state output.old) }
{
    let text = check_text(alloc, shown, changes)?;
    Ok(write_answer(text.as_slice(), status_of_changes(changes), output))
}

/// Ends an update that made these links: writes what `-v` asks for. If memory runs out, nothing is written.
pub fn answer_update<O: Sink>(
    alloc: Global,
    shown: Shown<'_>,
    looked: &Looked,
    links: &[Planned],
    output: &mut O,
) -> Result<Status, NoMemory>
    ensures answers { IfOk result (λ status. Answers (verbose_text shown.entry.front.now shown.entry.verbose looked.now links.now) Done status (O.state output.old) (O.state output.new)) }
    ensures no_memory { OnErr result (O.state output.new ≡ O.state output.old) }
{
    let text = verbose_text(alloc, shown, looked, links)?;
    Ok(write_answer(text.as_bytes(), Status::Done, output))
}
