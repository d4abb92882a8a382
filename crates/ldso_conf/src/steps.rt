//! What the lines of a conf file ask for.
ghost use Rattle.std.specs.Prelude.{◌≡◌, ◌∷◌, ◌++◌, [], false, map, flat_map, IfErr, IfOk, IsErrOf, OnOk};
ghost use Rattle.conf_views.specs.View.{IsSameView};
ghost use Rattle.conf_views.specs.declared.fault.ViewFault.TheVariants as faults;
ghost use Rattle.ldso_conf.specs.Lines.{arguments_of, include, words_of};
ghost use Rattle.ldso_conf.specs.Looked.{LooksUpBy, file_paths, include_paths};
ghost use Rattle.ldso_conf.specs.Steps.{directory_steps, include_steps, named, origin_at, reported, steps_of, text_steps, without_slashes};
ghost use Rattle.ldso_conf.specs.declared.steps.Step.TheVariants as step;

use crate::kinds::{ConfKind, ConfReport, Origin};
use crate::lines::{arguments_of, before_equals, text_of};
use conf_views::{FoundFile, TreeView, ViewFault};
use lib_types::trim::{has_one, without_end};
use lib_types::{NoMemory, Separator, Text, split};
use path_walk::is_absolute;
use std::alloc::Global;

/// What one line, or one result of a pattern, asks for.
#[derive(Drop)]
pub(crate) enum Step {
    Directory(Text, Origin),
    Report(ConfReport),
    Include(FoundFile),
}

// Adds a report about a line.
fn add_report(
    alloc: Global,
    place: &[u8],
    kind: ConfKind,
    origin: Origin,
    steps: &mut Vec<Step>,
) -> Result<(), NoMemory>
    ensures { OnOk result (steps.new.items ≡ steps.old.items ++ reported origin place.now kind ∷ []) }
{
    let place = Text::copy_of(alloc, place)?;
    let origin = Some(origin);
    steps.push(Step::Report(ConfReport {
        place,
        kind,
        origin,
    }))?;
    Ok(())
}

fn without_slashes(text: &[u8]) -> &[u8]
    ensures { result.now ≡ without_slashes text.now }
{
    let kept = without_end(b"/", text);
    if kept.is_empty() { b"/" } else { kept }
}

pub(crate) fn origin_of(alloc: Global, file: &[u8], line: u32) -> Result<Origin, NoMemory>
    ensures { IfOk result (λ origin. origin ≡ origin_at file.now line) }
{
    let file = Text::copy_of(alloc, file)?;
    Ok(Origin { file, line })
}

// Adds the step for a directory, or a report if its path is relative. Adds nothing if the text is empty.
fn add_named(
    alloc: Global,
    file: &[u8],
    line: u32,
    text: &[u8],
    steps: &mut Vec<Step>,
) -> Result<(), NoMemory>
    ensures { OnOk result (steps.new.items ≡ steps.old.items ++ named (origin_at file.now line) text.now) }
{
    if text.is_empty() {
        return Ok(());
    }
    let origin = origin_of(alloc, file, line)?;
    if !is_absolute(text) {
        return add_report(alloc, text, ConfKind::Relative, origin, steps);
    }
    let dir = Text::copy_of(alloc, without_slashes(text))?;
    steps.push(Step::Directory(dir, origin))?;
    Ok(())
}

fn add_directory(
    alloc: Global,
    file: &[u8],
    line: u32,
    text: &[u8],
    steps: &mut Vec<Step>,
) -> Result<(), NoMemory>
    ensures { OnOk result (steps.new.items ≡ steps.old.items ++ directory_steps (origin_at file.now line) text.now) }
{
    if !has_one(b"=", text) {
        return add_named(alloc, file, line, text, steps);
    }
    let dir = before_equals(text);
    let origin = origin_of(alloc, file, line)?;
    add_report(alloc, dir, ConfKind::Equals, origin, steps)?;
    add_named(alloc, file, line, dir, steps)?;
    Ok(())
}

// Adds the results of one pattern.
fn add_results(found: Vec<FoundFile>, steps: &mut Vec<Step>) -> Result<(), NoMemory>
    ensures { OnOk result (steps.new.items ≡ steps.old.items ++ map step.Include found.items) }
{
    for file in found {
        steps.push(Step::Include(file))?;
    }
    Ok(())
}

// Adds the results of the patterns between the blanks.
fn add_included<V: TreeView>(
    alloc: Global,
    view: &mut V,
    file: &[u8],
    patterns: &[u8],
    steps: &mut Vec<Step>,
) -> Result<(), ViewFault>
    ensures steps { OnOk result (V.knows view.old → steps.new.items ≡ steps.old.items ++ include_steps (V.state view.old).tree file.now patterns.now) }
    ensures looks { OnOk result (V.knows view.old → LooksUpBy (λ of. flat_map (of file.now) (words_of patterns.now)) (V.state view.old) (V.state view.new)) }
    ensures knows { OnOk result (V.knows view.old → V.knows view.new) }
    ensures view { IsSameView (V.state view.old) (V.state view.new) }
    ensures since { OnOk result ((start : V) → V.since start view.old → V.since start view.new) }
    ensures fails { IfErr result (λ fault. (start : V) → V.since start view.old → V.fails fault start view.new) }
    ensures unseen { IsErrOf result faults.Unseen → (V.state view.old).whole ≡ false }
{
    for pattern in split(Separator::In(b" \t"), patterns) {
        if !pattern.is_empty() {
            add_results(view.files(alloc, file, pattern)?, steps)?;
        }
    }
    Ok(())
}

// Adds the steps of one line without its comment.
fn add_text<V: TreeView>(
    alloc: Global,
    view: &mut V,
    file: &[u8],
    line: u32,
    text: &[u8],
    steps: &mut Vec<Step>,
) -> Result<(), ViewFault>
    ensures steps { OnOk result (V.knows view.old → steps.new.items ≡ steps.old.items ++ text_steps (V.state view.old).tree (origin_at file.now line) text.now) }
    ensures looks { OnOk result (V.knows view.old → LooksUpBy (λ of. include_paths of file.now (arguments_of include text.now)) (V.state view.old) (V.state view.new)) }
    ensures knows { OnOk result (V.knows view.old → V.knows view.new) }
    ensures view { IsSameView (V.state view.old) (V.state view.new) }
    ensures since { OnOk result ((start : V) → V.since start view.old → V.since start view.new) }
    ensures fails { IfErr result (λ fault. (start : V) → V.since start view.old → V.fails fault start view.new) }
    ensures unseen { IsErrOf result faults.Unseen → (V.state view.old).whole ≡ false }
{
    if let Some(patterns) = arguments_of(b"include", text) {
        return add_included(alloc, view, file, patterns, steps);
    }
    if arguments_of(b"hwcap", text).is_some() {
        let origin = origin_of(alloc, file, line)?;
        return Ok(add_report(alloc, file, ConfKind::Hwcap, origin, steps)?);
    }
    add_directory(alloc, file, line, text, steps)?;
    Ok(())
}

/// The steps of a file of this path and content.
#[tactic(auto, unfolding(crate::specs::Steps::steps_of, crate::specs::Looked::file_paths))]
pub(crate) fn steps_of<V: TreeView>(
    alloc: Global,
    view: &mut V,
    file: &[u8],
    content: &[u8],
) -> Result<Vec<Step>, ViewFault>
    ensures steps { IfOk result (λ steps. V.knows view.old → steps.items ≡ steps_of (V.state view.old).tree file.now content.now) }
    ensures looks { OnOk result (V.knows view.old → LooksUpBy (λ of. file_paths of file.now content.now) (V.state view.old) (V.state view.new)) }
    ensures knows { OnOk result (V.knows view.old → V.knows view.new) }
    ensures view { IsSameView (V.state view.old) (V.state view.new) }
    ensures since { OnOk result ((start : V) → V.since start view.old → V.since start view.new) }
    ensures fails { IfErr result (λ fault. (start : V) → V.since start view.old → V.fails fault start view.new) }
    ensures unseen { IsErrOf result faults.Unseen → (V.state view.old).whole ≡ false }
{
    let mut steps = Vec::new(alloc);
    let mut number = 1u32;
    for line in split(Separator::In(b"\n"), content) {
        add_text(alloc, view, file, number, text_of(line), &mut steps)?;
        let Some(next) = number.checked_add(1) else {
            return Err(ViewFault::NoMemory);
        };
        number = next;
    }
    Ok(steps)
}
