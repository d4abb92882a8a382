//! Files that are read.
ghost use Rattle.std.specs.Prelude.{◌≡◌, ◌≤◌, ◌+◌, ◌++◌, [], Some, false, length, IfOk, OnOk};
ghost use Rattle.std.specs.Cmp.Lexicographic.{slice_cmp};
ghost use Rattle.std.specs.List.{cons_option};
ghost use Rattle.std.specs.List.Sorted.{IsStrictlySortedBy};
ghost use Rattle.std.specs.Map.{keys_of};
ghost use Rattle.std.specs.Option.{option_and_then};
ghost use Rattle.std.specs.Ordering.{nat_cmp};
ghost use Rattle.aux_cache.specs.Stamps.{AreRecordable, IsRecordable, stamp_of};
ghost use Rattle.elf_dynamic.specs.Begun.{ReadsKeys, file_keys, lacks_one};
ghost use Rattle.elf_dynamic.specs.Faults.{analyse_ending};
ghost use Rattle.file_table.specs.Analyses.{AgreeOn, KeepsAnalyses};
ghost use Rattle.library_files.specs.FoundFile.{AreFilesOf, IsFileOf, paths_of};
ghost use Rattle.file_table.specs.Table.{analysis_at, with_analysis};
ghost use Rattle.lib_types.specs.Counts.{raised};
ghost use Rattle.tree_face.specs.Known.{IfKnown};
ghost use Rattle.file_stamps.specs.Files.{AreRead};
ghost use Rattle.file_stamps.specs.Opened.{HaveSameIds, ids_at, opened_keys, opens};
ghost use Rattle.file_stamps.specs.Reading.{IsFoundBy, ReadsOne, key_opened, keys_opened};
ghost use Rattle.file_stamps.specs.State.{ids_there, info_there, made_there, stamps_there, unread_in};
ghost use Rattle.file_stamps.specs.Stamped.{StampTheSame, stamp_by, stamps_at, with_stamps};

use crate::stamped::{info, keep};
use aux_cache::{GatheredStamps, Stamps};
use elf_dynamic::{AnalyseFault, analyse};
use file_table::Table;
use lib_types::{Analysis, NoMemory, Text};
use library_files::FoundFile;
use std::alloc::Global;
use tree_face::{Id, Store, Tree};

/// The files that were read or whose analysis came from a stamp.
#[derive(Drop)]
pub struct Files {
    /// The analysis of each file, by its path without links.
    pub table: Table,
    /// The stamps of the files that have an identity.
    pub stamps: GatheredStamps,
    /// The number of files that were opened.
    pub begun: usize,
}

impl Files {
    /// No files, with space for `room` files if memory allows.
    pub fn new(alloc: Global, room: usize) -> Files
        ensures table { result.table ≡ [] }
        ensures stamps { result.stamps ≡ [] }
        ensures begun { result.begun ≡ 0 }
    {
        let mut table = Table::new(alloc);
        table.make_room(room);
        Files {
            table,
            stamps: GatheredStamps::new(alloc),
            begun: 0,
        }
    }
}

// The analysis of a file from the stamp of its identity. A file whose identity has no stamp is opened.
#[tactic(auto, using(crate::proofs::Stamps::recordable_read))]
fn analysis_of<S: Store>(
    alloc: Global,
    store: &mut S,
    loaded: &Stamps,
    made: &GatheredStamps,
    file: &FoundFile<'_>,
    begun: &mut usize,
) -> Result<Analysis, AnalyseFault>
    requires { AreRecordable loaded.now }
    ensures found { IfOk result (λ analysis. IsFoundBy (S.state store.old).held file.now.key (option_and_then (stamp_of (loaded.now ++ made.now)) file.now.id)
        analysis begun.old begun.new) }
    ensures recordable { IfOk result IsRecordable }
    ensures reads { ReadsKeys (key_opened (option_and_then (stamp_of (loaded.now ++ made.now)) file.now.id) file.now.key) (analyse_ending result)
        (S.state store.old) (S.state store.new) }
{
    match info(alloc, loaded, made, file.id.copied()) {
        Ok(Some(analysis)) => return Ok(analysis),
        Ok(None) => {}
        Err(NoMemory) => return Err(AnalyseFault::NoMemory),
    }
    let Some(count) = begun.checked_add(1) else {
        return Err(AnalyseFault::NoMemory);
    };
    let analysis = analyse(alloc, store, file.key)?;
    *begun = count;
    Ok(analysis)
}

// Adds a file's analysis and its stamp.
#[tactic(auto, using(crate::proofs::Stamps::recordable_named))]
fn add(
    alloc: Global,
    files: &mut Files,
    path: Text,
    id: Option<Id>,
    analysis: Analysis,
) -> Result<(), NoMemory>
    requires { IsRecordable analysis }
    ensures table { OnOk result (files.new.table ≡ with_analysis files.old.table path analysis) }
    ensures stamps { OnOk result (files.new.stamps ≡ with_stamps files.old.stamps (cons_option (stamp_by id (Some analysis)) [])) }
    ensures begun { files.new.begun ≡ files.old.begun }
{
    keep(alloc, &mut files.stamps, id, &analysis)?;
    files.table.insert(path, analysis)?;
    Ok(())
}

// Reads a file, unless it has an analysis or a stamp gives its analysis. Only the contract uses the tree.
fn read_file<S: Store>(
    alloc: Global,
    _tree: &Tree,
    store: &mut S,
    loaded: &Stamps,
    file: FoundFile<'_>,
    files: &mut Files,
) -> Result<(), AnalyseFault>
    requires file { IsFileOf _tree.now file }
    requires recordable { AreRecordable loaded.now }
    ensures one { OnOk result (ReadsOne _tree.now loaded.now file.entry.path (S.state store.old).held files.old files.new) }
    ensures reads { ReadsKeys (keys_opened _tree.now (ids_there loaded.now files.old) (analysis_at files.old.table) file.entry.path) (analyse_ending result)
        (S.state store.old) (S.state store.new) }
{
    if files.table.get(file.path.as_bytes()).is_some() {
        return Ok(());
    }
    let analysis = analysis_of(alloc, store, loaded, &files.stamps, &file, &mut files.begun)?;
    match add(alloc, files, file.path, file.id.copied(), analysis) {
        Ok(()) => Ok(()),
        Err(NoMemory) => Err(AnalyseFault::NoMemory),
    }
}

/// Reads those of these files that have no analysis yet, in path order. A file is opened if it has no identity. It is also opened if its
/// identity has no stamp: no loaded one, and none from a file that was read before. The paths must be strictly ascending by bytes.
/// The new rows follow the old rows of the table, in this order. Only the contract uses the tree; the code needs only the found files.
pub fn read_files<S: Store>(
    alloc: Global,
    tree: &Tree,
    store: &mut S,
    loaded: &Stamps,
    found: Vec<FoundFile<'_>>,
    files: &mut Files,
) -> Result<(), AnalyseFault>
    requires sorted { IsStrictlySortedBy (slice_cmp nat_cmp) (paths_of found.items) }
    requires files { AreFilesOf tree.now found.items }
    requires recordable { AreRecordable loaded.now }
    ensures info { OnOk result (IfKnown (S.state store.old).held (λ held. AgreeOn (unread_in files.old found.entry.items)
        (info_there held tree.now loaded.now files.old (unread_in files.old found.entry.items)) (analysis_at files.new.table))) }
    ensures kept { OnOk result (KeepsAnalyses (analysis_at files.old.table) (analysis_at files.new.table)) }
    ensures all { OnOk result (AreRead tree.now (analysis_at files.new.table) (paths_of found.entry.items)) }
    ensures rows { OnOk result (keys_of files.new.table ≡ keys_of files.old.table ++ unread_in files.old found.entry.items) }
    ensures stamps { OnOk result (IfKnown (S.state store.old).held (λ held. files.new.stamps ≡ with_stamps files.old.stamps
        (made_there held tree.now loaded.now files.old (unread_in files.old found.entry.items)))) }
    ensures stamped { OnOk result (IfKnown (S.state store.old).held (λ held. StampTheSame (stamps_there loaded.now files.new)
        (stamps_there loaded.now files.old ++ stamps_at held tree.now (unread_in files.old found.entry.items)))) }
    ensures ids { OnOk result (HaveSameIds (ids_there loaded.now files.new)
        (ids_there loaded.now files.old ++ ids_at tree.now (unread_in files.old found.entry.items))) }
    ensures begun { OnOk result (files.new.begun ≡ files.old.begun
        + length (opened_keys tree.now (ids_there loaded.now files.old) (unread_in files.old found.entry.items))) }
    ensures opens { OnOk result (files.new.begun ≡ files.old.begun
        + opens tree.now (stamps_there loaded.now files.old) (unread_in files.old found.entry.items)) }
    ensures few { OnOk result (files.new.begun ≤ files.old.begun + length (file_keys tree.now (unread_in files.old found.entry.items))) }
    ensures none_lacks { OnOk result (IfKnown (S.state store.old).held
        (λ held. lacks_one held (opened_keys tree.now (ids_there loaded.now files.old) (unread_in files.old found.entry.items)) ≡ false)) }
    ensures reads { ReadsKeys (opened_keys tree.now (ids_there loaded.now files.old) (unread_in files.old found.entry.items))
        (analyse_ending result) (S.state store.old) (S.state store.new) }
    ensures most { (S.state store.new).begun ≤ raised (S.state store.old).begun (length (file_keys tree.now (unread_in files.old found.entry.items))) }
{
    for file in found {
        read_file(alloc, tree, store, loaded, file, files)?;
    }
    Ok(())
}
