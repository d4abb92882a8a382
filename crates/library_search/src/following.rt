//! The results in the tree with the planned links.
ghost use Rattle.std.specs.Prelude.{◌≡◌, ◌+◌, ◌||◌, ℕ, List, true, false, length, IfErr, IfOk, OnOk};
ghost use Rattle.std.specs.List.{list_any};
ghost use Rattle.std.specs.Map.{keys_of};
ghost use Rattle.std.specs.Str.{bytes_eq};
ghost use Rattle.file_stamps.specs.Files.{AreRead};
ghost use Rattle.aux_cache.specs.Stamps.{AreRecordable};
ghost use Rattle.elf_dynamic.specs.Begun.{ReadsKeys, lacks_one};
ghost use Rattle.file_table.specs.Analyses.{AgreeOn, KeepsAnalyses};
ghost use Rattle.library_files.specs.Search.{dangling, followed, reached};
ghost use Rattle.file_table.specs.Table.{analysis_at};
ghost use Rattle.file_stamps.specs.Stamped.{with_stamps};
ghost use Rattle.tree_face.specs.Known.{IfKnown};
ghost use Rattle.library_search.specs.After.{made_after, opened_after, info_after, unread_after};
ghost use Rattle.library_search.specs.Faults.{find_ending, is_store_fault};

use crate::fault::FindFault;
use aux_cache::Stamps;
use file_stamps::{Files, read_files};
use hwcap_dirs::Dirs;
use lib_types::Texts;
use library_files::{PlaceLinks, dangling_among, follow, unread_files};
use std::alloc::Global;
use tree_face::{Store, Tree};

/// The links with library names.
#[derive(Drop)]
pub struct Followed {
    /// The links in each search directory.
    pub links: PlaceLinks,
    /// The links that lead to no file.
    pub dangling: Texts,
}

/// Follows the links with library names, and reads their targets, unless these have an analysis. It opens a file only if the file's
/// identity has no stamp.
pub fn follow_links<S: Store>(
    alloc: Global,
    tree: &Tree,
    store: &mut S,
    loaded: &Stamps,
    dirs: &Dirs,
    files: &mut Files,
) -> Result<Followed, FindFault>
    requires recordable { AreRecordable loaded.now }
    ensures links { IfOk result (λ found. found.links ≡ followed tree.now dirs.now.places) }
    ensures dangling { IfOk result (λ found. found.dangling ≡ dangling tree.now dirs.now.places) }
    ensures info { OnOk result (IfKnown (S.state store.old).held (λ held. AgreeOn (unread_after files.old tree.now dirs.now)
        (info_after held loaded.now files.old tree.now dirs.now) (analysis_at files.new.table))) }
    ensures kept { OnOk result (KeepsAnalyses (analysis_at files.old.table) (analysis_at files.new.table)) }
    ensures all { OnOk result (AreRead tree.now (analysis_at files.new.table) (reached tree.now dirs.now.places)) }
    ensures only { OnOk result ((path : List ℕ) → list_any (bytes_eq path) (keys_of files.new.table) ≡ true →
        (list_any (bytes_eq path) (keys_of files.old.table) || list_any (bytes_eq path) (reached tree.now dirs.now.places)) ≡ true) }
    ensures stamps { OnOk result (IfKnown (S.state store.old).held (λ held. files.new.stamps ≡ with_stamps files.old.stamps
        (made_after held loaded.now files.old tree.now dirs.now))) }
    ensures begun { OnOk result (files.new.begun ≡ files.old.begun + length (opened_after loaded.now files.old tree.now dirs.now)) }
    ensures none_lacks { OnOk result (IfKnown (S.state store.old).held (λ held. lacks_one held (opened_after loaded.now files.old tree.now dirs.now) ≡ false)) }
    ensures reads { ReadsKeys (opened_after loaded.now files.old tree.now dirs.now) (find_ending result) (S.state store.old) (S.state store.new) }
    ensures others { IfErr result (λ fault. is_store_fault fault ≡ true) }
{
    let links = follow(alloc, tree, dirs)?;
    let found = unread_files(alloc, tree, dirs, &links, &files.table)?;
    read_files(alloc, tree, store, loaded, found, files)?;
    let dangling = dangling_among(alloc, &links)?;
    Ok(Followed { links, dangling })
}
