//! The reading of the conf file, with the files that it includes.
ghost use Rattle.std.specs.Prelude.{◌≡◌, ◌≤◌, ◌-◌, ◌+◌, ◌∷◌, [], None, false, length, All, IfErr, IfOk, IsErrOf, OnOk};
ghost use Rattle.lib_types.specs.Counts.{raised};
ghost use Rattle.tree_face.specs.Known.{IfKnown};
ghost use Rattle.conf_views.specs.View.{IsSameView};
ghost use Rattle.ldso_conf.specs.Endings.{StopsBy, read_ending};
ghost use Rattle.ldso_conf.specs.Looked.{LooksForConf};
ghost use Rattle.ldso_conf.specs.Reading.{begun, included, reported, was_read, ConfFile as ConfFileAt, IsConfOf, ReadsConf};
ghost use Rattle.ldso_conf.specs.Visits.{with_report, HasLoaded, HasTaken, IsToBegin, LooksFor, ReadsAny, ReadsFile, ReadsItems};
ghost use Rattle.ldso_conf.specs.declared.fault.ReadFault.TheVariants as faults;

use crate::content::content_of;
use crate::fault::ReadFault;
use crate::kinds::{Conf, ConfKind};
use crate::reader::Reader;
use crate::steps::{Step, steps_of};
use conf_views::{FoundFile, TreeView};
use lib_types::{NoMemory, Text};
use std::alloc::Global;
use tree_face::{PATH_MAX, Store};

/// The largest size of a conf file in bytes: far larger than real conf files, and small enough to read the file at once.
pub const CONF_MAX: u64 = 1 << 20;

/// The path of the conf file, unless another is given.
pub const CONF_PATH: &[u8] = b"/etc/ld.so.conf";

/// The greatest depth of an included file. The conf file itself has depth 0.
pub const DEPTH_MAX: u8 = 16;

/// A conf file: its path as written, and the path that it resolves to.
#[derive(Drop)]
struct ConfFile {
    spelled: Text,
    real: Text,
}

// Adds a report about a path.
fn report(alloc: Global, reader: &mut Reader, place: &Text, kind: ConfKind) -> Result<(), NoMemory>
    ensures { OnOk result (reader.new ≡ with_report reader.old (reported place.now kind)) }
{
    reader.report(Text::copy_of(alloc, place.as_bytes())?, kind)
}

// The key of a file that is to be opened. If the file is not to be opened, reports why.
#[tactic(auto, using(crate::proofs::Visiting::not_file, crate::proofs::Visiting::repeated, crate::proofs::Visiting::too_deep, crate::proofs::Visiting::begins))]
fn key_to_begin(
    alloc: Global,
    reader: &mut Reader,
    left: u8,
    file: &ConfFile,
    key: Option<Text>,
) -> Result<Option<Text>, NoMemory>
    ensures visits { IfOk result (λ begins. IsToBegin left reader.old (file.now.spelled, file.now.real) key reader.new begins) }
{
    let Some(key) = key else {
        report(alloc, reader, &file.spelled, ConfKind::NotFile)?;
        return Ok(None);
    };
    if reader.was_read(file.real.as_bytes()) {
        report(alloc, reader, &file.spelled, ConfKind::Repeated)?;
        return Ok(None);
    }
    if left == 0 {
        report(alloc, reader, &file.spelled, ConfKind::TooDeep)?;
        return Ok(None);
    }
    Ok(Some(key))
}

// Opens a file and reads it, or reports that it is too large. Returns the steps of its lines.
#[tactic(auto, using(crate::proofs::Files::gave_up, crate::proofs::Files::not_answered, crate::proofs::Files::was_unseen))]
fn load<V: TreeView, S: Store>(
    alloc: Global,
    view: &mut V,
    store: &mut S,
    reader: &mut Reader,
    key: &Text,
    file: ConfFile,
) -> Result<Vec<Step>, ReadFault>
    requires { was_read reader.old.read file.real ≡ false }
    ensures loads { IfOk result (λ steps. V.knows view.old → IfKnown (S.state store.old).held
        (λ held. HasLoaded (V.state view.old).tree (begun (file.spelled, file.real) key.now (held key.now)) reader.old reader.new steps.items)) }
    ensures files { IfOk result (λ _. reader.new.files ≡ reader.old.files + 1) }
    ensures begun { IfOk result (λ _. (S.state store.new).begun ≡ raised (S.state store.old).begun 1) }
    ensures reads { ReadsFile key.now (S.state store.old).held (read_ending result) (S.state store.old) (S.state store.new) }
    ensures looks { OnOk result (V.knows view.old → IfKnown (S.state store.old).held
        (λ held. LooksFor (V.state view.old).tree (begun (file.spelled, file.real) key.now (held key.now) ∷ []) (V.state view.old) (V.state view.new))) }
    ensures knows { OnOk result (V.knows view.old → V.knows view.new) }
    ensures view { IsSameView (V.state view.old) (V.state view.new) }
    ensures since { OnOk result ((start : V) → V.since start view.old → V.since start view.new) }
    ensures stops { IfErr result (λ fault. (start : V) → V.since start view.old → StopsBy V.since V.fails fault start view.new) }
    ensures unseen { IsErrOf result faults.Unseen → (V.state view.old).whole ≡ false }
{
    reader.count_file()?;
    let Some(content) = content_of(alloc, store, key.as_bytes())? else {
        reader.report(file.spelled, ConfKind::TooLarge)?;
        return Ok(Vec::new(alloc));
    };
    reader.add_read(file.real)?;
    Ok(steps_of(alloc, view, file.spelled.as_bytes(), &content)?)
}

// Visits a file: reads it and processes the steps of its lines. Files may be nested at most `left` levels deep, counting this file.
#[tactic(auto, using(crate::proofs::Uses::reads_none, crate::proofs::Uses::any_file, crate::proofs::Uses::any_stops, crate::proofs::Uses::any_done, crate::proofs::Uses::any_gives_up, crate::proofs::Uses::any_nothing))]
fn visit<V: TreeView, S: Store>(
    alloc: Global,
    view: &mut V,
    store: &mut S,
    reader: &mut Reader,
    left: u8,
    file: FoundFile,
) -> Result<(), ReadFault>
    ensures visits { OnOk result (V.knows view.old → IfKnown (S.state store.old).held
        (λ held. HasTaken (included (V.state view.old).tree held left reader.old.read file) reader.old reader.new)) }
    ensures files { OnOk result (reader.old.files ≤ reader.new.files) }
    ensures begun { OnOk result ((S.state store.new).begun ≡ raised (S.state store.old).begun (reader.new.files - reader.old.files)) }
    ensures reads { V.knows view.old → ReadsItems (λ held. included (V.state view.old).tree held left reader.old.read file) (S.state store.old).held
        (read_ending result) (S.state store.old) (S.state store.new) }
    ensures any { ReadsAny (S.state store.old).held (read_ending result) (S.state store.old) (S.state store.new) }
    ensures looks { OnOk result (V.knows view.old → IfKnown (S.state store.old).held
        (λ held. LooksFor (V.state view.old).tree (included (V.state view.old).tree held left reader.old.read file) (V.state view.old) (V.state view.new))) }
    ensures knows { OnOk result (V.knows view.old → V.knows view.new) }
    ensures view { IsSameView (V.state view.old) (V.state view.new) }
    ensures since { OnOk result ((start : V) → V.since start view.old → V.since start view.new) }
    ensures stops { IfErr result (λ fault. (start : V) → V.since start view.old → StopsBy V.since V.fails fault start view.new) }
    ensures unseen { IsErrOf result faults.Unseen → (V.state view.old).whole ≡ false }
{
    let FoundFile { spelled, real, key } = file;
    let file = ConfFile { spelled, real };
    let Some(key) = key_to_begin(alloc, reader, left, &file, key)? else {
        return Ok(());
    };
    for step in load(alloc, view, store, reader, &key, file)? {
        match step {
            Step::Directory(dir, origin) => reader.add_dir(dir, origin)?,
            Step::Report(report) => reader.add_report(report)?,
            Step::Include(file) => visit(alloc, view, store, reader, left - 1, file)?,
        }
    }
    Ok(())
}

/// Reads the conf file at this path and all files that it includes. Looks up only the paths that the reading needs.
///
/// Uses memory for the steps of the files that are being visited, at most 17 of them, and for the result.
#[tactic(auto, using(crate::proofs::Whole::no_conf, crate::proofs::Whole::no_reads, crate::proofs::Whole::gave_up, crate::proofs::Files::was_unseen, crate::proofs::Uses::any_nothing, crate::proofs::Uses::reads_none))]
pub fn read_conf_in<V: TreeView, S: Store>(
    alloc: Global,
    path: &[u8],
    view: &mut V,
    store: &mut S,
) -> Result<Conf, ReadFault>
    ensures conf { IfOk result (λ conf. V.knows view.old → IfKnown (S.state store.old).held
        (λ held. IsConfOf (ConfFileAt path.now) conf held (V.state view.old).tree)) }
    ensures short { IfOk result (λ conf. All (λ dir. length dir ≤ PATH_MAX) conf.dirs) }
    ensures begun { IfOk result (λ conf. (S.state store.new).begun ≡ raised (S.state store.old).begun conf.files) }
    ensures reads { V.knows view.old → ReadsConf (ConfFileAt path.now) (V.state view.old).tree (read_ending result) (S.state store.old) (S.state store.new) }
    ensures any { ReadsAny (S.state store.old).held (read_ending result) (S.state store.old) (S.state store.new) }
    ensures looks { OnOk result (V.knows view.old → IfKnown (S.state store.old).held (λ held. LooksForConf (ConfFileAt path.now) held (V.state view.old) (V.state view.new))) }
    ensures knows { OnOk result (V.knows view.old → V.knows view.new) }
    ensures view { IsSameView (V.state view.old) (V.state view.new) }
    ensures since { OnOk result ((start : V) → V.since start view.old → V.since start view.new) }
    ensures stops { IfErr result (λ fault. (start : V) → V.since start view.old → StopsBy V.since V.fails fault start view.new) }
    ensures unseen { IsErrOf result faults.Unseen → (V.state view.old).whole ≡ false }
{
    let mut reader = Reader::new(alloc);
    let Some(file) = view.file_at(alloc, path)? else {
        return Ok(reader.into_conf());
    };
    visit(alloc, view, store, &mut reader, DEPTH_MAX + 1, file)?;
    Ok(reader.into_conf())
}
