//! An update by a manifest of the same tree.
use elf_samples::SampleFault;
use image_rows::aux_of;
use image_session::Session;
use ldconfig_core::update;
use lib_types::NoMemory;
use mtree_manifest::write;
use root_update::AuxUse;
use root_update_fixture::{Devices, TAG, aux_use, file_left, store_of, tree_left, whole_tree};
use std::alloc::Global;
use table_rows::{Differences, Row, has_line};
use tree_face::{Disk, MemDisk, MemStore, Slot};

// The tree and the cache that an update leaves.
#[derive(Drop)]
struct Outcome {
    tree: Vec<u8>,
    cache: Vec<u8>,
}

// The tree and the cache of an image that was updated.
fn left_in(
    alloc: Global,
    image: &Session,
    disk: &mut MemDisk,
) -> Result<Option<Outcome>, NoMemory> {
    let tree = write(alloc, &image.tree)?;
    match disk.read(alloc, Slot::Cache) {
        Ok(Some(cache)) => Ok(Some(Outcome { tree, cache })),
        _ => Ok(None),
    }
}

// Updates the image of a disk. The result is None if that fails.
fn update_image(
    alloc: Global,
    store: &mut MemStore,
    disk: &mut MemDisk,
) -> Result<Option<Outcome>, NoMemory> {
    let Ok(session) = Session::load(alloc, disk) else {
        return Ok(None);
    };
    match update(alloc, session, store, disk, TAG) {
        Ok((image, _report)) => left_in(alloc, &image, disk),
        Err(_) => Ok(None),
    }
}

// The auxiliary cache that the row's run reads.
fn aux_read(alloc: Global, row: Row<'_>) -> Result<Option<Vec<u8>>, NoMemory> {
    if aux_use(row) == AuxUse::Updated {
        aux_of(alloc, row)
    } else {
        Ok(None)
    }
}

// Updates by a manifest of the row's directory.
fn updated(
    alloc: Global,
    row: Row<'_>,
    differences: &mut Differences,
) -> Result<Option<Outcome>, SampleFault> {
    let Some(tree) = whole_tree(alloc, row, differences)? else {
        return Ok(None);
    };
    let manifest = write(alloc, &tree)?;
    let mut store = store_of(alloc, row, None)?;
    let aux = aux_read(alloc, row)?;
    let mut disk = MemDisk::new(alloc, Some(manifest), None, aux, Vec::new(alloc));
    Ok(update_image(alloc, &mut store, &mut disk)?)
}

fn is_same(want: &Outcome, got: &Outcome, differences: &mut Differences) -> Result<bool, NoMemory> {
    Ok(
        differences.is_same(b"the cache by a manifest", &want.cache, &got.cache)?
            && differences.is_same(b"the tree by a manifest", &want.tree, &got.tree)?,
    )
}

// Whether the row compares its update with one by a manifest. A run that is rejected or leaves something out isn't compared.
fn is_compared(row: Row<'_>) -> bool {
    !has_line(row, b"refused") && !has_line(row, b"no-links") && !has_line(row, b"no-cache")
}

/// Whether an update by a manifest of the same tree leaves the same tree and the same cache; with `other-than-update`, another cache.
pub(crate) fn is_as_by_manifest(
    alloc: Global,
    row: Row<'_>,
    devices: &mut Devices,
    differences: &mut Differences,
) -> Result<bool, SampleFault> {
    if !is_compared(row) {
        return Ok(true);
    }
    let Some(want) = updated(alloc, row, differences)? else {
        differences.say(b"no update by a manifest", b"")?;
        return Ok(false);
    };
    let got = Outcome {
        tree: tree_left(alloc, devices)?,
        cache: file_left(alloc, Slot::Cache, devices),
    };
    if has_line(row, b"other-than-update") {
        return Ok(want.cache.as_slice() != got.cache.as_slice());
    }
    Ok(is_same(&want, &got, differences)?)
}
