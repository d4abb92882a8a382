//! The lines of a script, done in order.
ghost use Rattle.std.specs.Prelude.{◌≡◌, ◌⊎◌, Err, Ok};
ghost use Rattle.image_tree.specs.Node.{is_node};
ghost use Rattle.image_tree.specs.Paths.{is_path};
ghost use Rattle.script_lines.specs.Script.{IsProper, line_of};
ghost use Rattle.script_runs.specs.Faults.{edited};
ghost use Rattle.script_runs.specs.Run.{DoesLineOrNothing, RunsLines, TakesLine, lines_of};
ghost use Rattle.update_runs.specs.Update.{states};
ghost use Rattle.image_session.specs.Edit.{drop_result, put_entry_result};

use crate::fault::{LineFault, ScriptFault};
use command_status::ScriptKind;
use image_session::Session;
use lib_types::{Separator, Text, split};
use mtree_manifest::EntryLineFault;
use script_lines::{ScriptLine, read_line};
use tree_face::{Disk, Node, Sink, Store};
use update_runs::{Updater, update_once};

// Puts the node of an entry, if it has one.
fn put(session: Session, entry: Option<(Text, Node)>) -> Result<Session, LineFault>
    requires { IsProper (ScriptLine.Put entry) }
    ensures { (result ≡ edited (put_entry_result session entry)) ⊎ (result ≡ Err LineFault.NoMemory) }
{
    let mut image = session;
    if let Some((path, node)) = entry {
        if let Err(fault) = image.put(path.as_bytes(), node) {
            return Err(LineFault::from(fault));
        }
    }
    Ok(image)
}

// Removes the node of a path.
fn remove(session: Session, path: &Text) -> Result<Session, LineFault>
    ensures { result ≡ edited (drop_result session path.now) }
{
    let mut image = session;
    match image.remove(path.as_bytes()) {
        Ok(()) => Ok(image),
        Err(fault) => Err(LineFault::from(fault)),
    }
}

// Updates a session.
fn update<S: Store, D: Disk, O: Sink>(
    by: Updater,
    session: Session,
    store: &mut S,
    disk: &mut D,
    sink: &mut O,
) -> Result<Session, LineFault>
    ensures { DoesLineOrNothing by.tag (Ok ScriptLine.Update) session result
        (states (S.state store.old) (D.state disk.old) (O.state sink.old)) (states (S.state store.new) (D.state disk.new) (O.state sink.new)) }
{
    match update_once(by, session, store, disk, sink) {
        Ok(updated) => Ok(updated),
        Err(fault) => Err(LineFault::Updating(fault)),
    }
}

// Does what a line says.
fn do_line<S: Store, D: Disk, O: Sink>(
    by: Updater,
    asked: ScriptLine,
    session: Session,
    store: &mut S,
    disk: &mut D,
    sink: &mut O,
) -> Result<Session, LineFault>
    requires { IsProper asked }
    ensures { DoesLineOrNothing by.tag (Ok asked) session result
        (states (S.state store.old) (D.state disk.old) (O.state sink.old)) (states (S.state store.new) (D.state disk.new) (O.state sink.new)) }
{
    match asked {
        ScriptLine::Ignored => Ok(session),
        ScriptLine::Put(entry) => put(session, entry),
        ScriptLine::Drop(path) => remove(session, &path),
        ScriptLine::Update => update(by, session, store, disk, sink),
    }
}

// Parses a line and does it.
fn take_line<S: Store, D: Disk, O: Sink>(
    by: Updater,
    line: &[u8],
    session: Session,
    store: &mut S,
    disk: &mut D,
    sink: &mut O,
) -> Result<Session, LineFault>
    ensures { TakesLine by.tag line.now session result
        (states (S.state store.old) (D.state disk.old) (O.state sink.old)) (states (S.state store.new) (D.state disk.new) (O.state sink.new)) }
{
    match read_line(by.alloc, line) {
        Ok(asked) => do_line(by, asked, session, store, disk, sink),
        Err(EntryLineFault::Bad(kind)) => Err(LineFault::Bad(ScriptKind::Bad(kind))),
        Err(EntryLineFault::NoMemory) => Err(LineFault::NoMemory),
    }
}

/// Runs a script of a session, and returns the session at its end. Each update writes its report. It writes no fault line.
pub(crate) fn run_lines<S: Store, D: Disk, O: Sink>(
    by: Updater,
    text: &[u8],
    session: Session,
    store: &mut S,
    disk: &mut D,
    sink: &mut O,
) -> Result<Session, ScriptFault>
    ensures { RunsLines by.tag 1 (lines_of text.now) session result
        (states (S.state store.old) (D.state disk.old) (O.state sink.old)) (states (S.state store.new) (D.state disk.new) (O.state sink.new)) }
{
    let mut image = session;
    let mut taken = 0u64;
    for line in split(Separator::In(b"\n"), text) {
        let Some(number) = taken.checked_add(1) else {
            return Err(ScriptFault::NoMemory);
        };
        match take_line(by, line, image, store, disk, sink) {
            Ok(next) => image = next,
            Err(fault) => return Err(fault.at(number)),
        }
        taken = number;
    }
    Ok(image)
}
