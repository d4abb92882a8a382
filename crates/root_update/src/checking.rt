//! What an update of a directory would change.
ghost use Rattle.std.specs.Prelude.{◌≡◌};
ghost use Rattle.root_update.specs.Check.{ChecksRoot, Compares, status_of_changes};
ghost use Rattle.root_update.specs.Made.{root_states};

use crate::fault::RootFault;
use crate::making::{asked_links, prepare_root};
use crate::parts::RootParts;
use command_status::Status;
use image_session::{SlotFault, read_slot};
use ldconfig_core::{Looked, Report};
use link_plan::Plan;
use root_folder::Folder;
use std::alloc::Global;
use tree_face::{Disk, Slot, Store};

/// What an update of a directory would change.
#[derive(Drop)]
pub struct RootChanges {
    /// The links that it would make.
    pub links: Plan,
    /// Whether the cache would change.
    pub cache: bool,
    pub report: Report,
    pub looked: Looked,
}

// Whether a cache is requested, and the existing one has other bytes or is missing.
fn differs<D: Disk>(
    alloc: Global,
    asked: bool,
    disk: &mut D,
    cache: &[u8],
) -> Result<bool, SlotFault>
    ensures { Compares asked cache.now result (D.state disk.old) (D.state disk.new) }
{
    if !asked {
        return Ok(false);
    }
    match read_slot(alloc, disk, Slot::Cache) {
        Ok(Some(text)) => Ok(text.as_bytes() != cache),
        Ok(None) => Ok(true),
        Err(fault) => Err(fault),
    }
}

/// Finds what `update_root` would change, except in the auxiliary cache, and writes nothing.
pub fn check_root<F: Folder, S: Store, D: Disk>(
    alloc: Global,
    parts: &RootParts,
    folder: &mut F,
    store: &mut S,
    disk: &mut D,
) -> Result<RootChanges, RootFault>
    ensures { ChecksRoot parts.now result
        (root_states (F.state folder.old) (S.state store.old) (D.state disk.old)) (root_states (F.state folder.new) (S.state store.new) (D.state disk.new)) }
{
    let prepared = prepare_root(alloc, &parts.scope, parts.aux, folder, store, disk)?;
    let cache = prepared.cache;
    let differs = differs(alloc, parts.cache, disk, cache.as_slice())?;
    Ok(RootChanges {
        links: asked_links(alloc, parts.links, prepared.plan),
        cache: differs,
        report: prepared.report,
        looked: prepared.looked,
    })
}

/// The status of a check that found these changes: `Missing` if anything would change.
pub fn status_of_changes(changes: &RootChanges) -> Status
    ensures { result ≡ status_of_changes changes.now }
{
    if changes.cache || !changes.links.is_empty() {
        Status::Missing
    } else {
        Status::Done
    }
}
