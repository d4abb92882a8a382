//! One update of a directory.
ghost use Rattle.std.specs.Prelude.{◌≤◌, OnOk};
ghost use Rattle.atomic_replace.specs.OneByOne.{KeepsRestMade};
ghost use Rattle.root_update.specs.Made.{root_states};
ghost use Rattle.root_update.specs.Repair.{IfMade, RepairsRoot};
ghost use Rattle.root_update.specs.Update.{LeavesPlanned, UpdatesRoot};
ghost use Rattle.root_writes.specs.Writing.{file_slots};

use crate::fault::RootFault;
use crate::making::{asked_links, aux_for, cache_for, new_links, prepare_root};
use crate::parts::RootParts;
use ldconfig_core::{Looked, Report};
use link_plan::Plan;
use root_folder::Folder;
use root_writes::{RootWrites, write_root};
use std::alloc::Global;
use tree_face::{Disk, Store, Tag};

/// What an update of a directory did.
#[derive(Drop)]
pub struct Updated {
    pub report: Report,
    /// The links that were made, with their paths.
    pub links: Plan,
    pub looked: Looked,
}

/// Updates a directory without a manifest. It reads the auxiliary cache, if that is used, and the tree. Then it plans the links of the
/// libraries and builds the cache of their entries. Then it makes the links, flushes their directories, and replaces the cache and the
/// auxiliary cache, in this order. It reads everything and allocates all memory before the first writing call. A second update would
/// make no link and write the same caches.
pub fn update_root<F: Folder, S: Store, D: Disk>(
    alloc: Global,
    parts: &RootParts,
    folder: &mut F,
    store: &mut S,
    disk: &mut D,
    tag: Tag,
) -> Result<Updated, RootFault>
    ensures updates { UpdatesRoot parts.now tag result
        (root_states (F.state folder.old) (S.state store.old) (D.state disk.old)) (root_states (F.state folder.new) (S.state store.new) (D.state disk.new)) }
    ensures planned { OnOk result (LeavesPlanned parts.now
        (root_states (F.state folder.old) (S.state store.old) (D.state disk.old)) (root_states (F.state folder.new) (S.state store.new) (D.state disk.new))) }
    ensures repairs { IfMade result (RepairsRoot parts.now
        (root_states (F.state folder.old) (S.state store.old) (D.state disk.old)) (root_states (F.state folder.new) (S.state store.new) (D.state disk.new))) }
    ensures made { KeepsRestMade tag.0 file_slots (D.state disk.old) (D.state disk.new) }
    ensures faults { (D.state disk.old).faults ≤ (D.state disk.new).faults }
{
    let prepared = prepare_root(alloc, &parts.scope, parts.aux, folder, store, disk)?;
    let cache = prepared.cache;
    let aux = prepared.aux;
    let plan = asked_links(alloc, parts.links, prepared.plan);
    let links = new_links(alloc, plan.as_slice())?;
    let writes = RootWrites {
        links: links.as_slice(),
        cache: cache_for(parts.cache, cache.as_slice()),
        aux: aux_for(parts.aux, aux.as_slice()),
    };
    let written = write_root(folder, disk, tag, &writes);
    drop(links);
    match written {
        Ok(()) => Ok(Updated {
            report: prepared.report,
            links: plan,
            looked: prepared.looked,
        }),
        Err(fault) => Err(RootFault::Write(fault)),
    }
}
