//! The I/O interfaces of a row's directory, and its update.
use crate::tree::whole_tree;
use elf_samples::SampleFault;
use hwcap_dirs::Scope;
use image_rows::{aux_of, held_of};
use lib_types::NoMemory;
use root_folder::MemFolder;
use root_update::{AuxUse, RootFault, RootParts, Updated, update_root};
use std::alloc::Global;
use table_rows::{Differences, Row, Words, has_line, optional_text, owned_value, values};
use tree_face::{MemDisk, MemStore, Tag, Tree};

/// The words of a directory besides its manifest, its files and its auxiliary cache: the existing cache, and the options of the run.
pub const RUN: Words = &[
    b"cache",
    b"no-links",
    b"no-cache",
    b"aux-cache",
    b"ignore-aux-cache",
    b"conf-file",
    b"only",
];

/// The tag of the updates.
pub const TAG: Tag = Tag(7);

/// A directory in memory.
#[derive(Drop)]
pub struct Devices {
    pub folder: MemFolder,
    pub store: MemStore,
    pub disk: MemDisk,
}

/// For each interface, the number of the call that fails, counted from 0.
#[derive(Clone, Copy)]
pub struct Failing {
    pub folder: Option<u64>,
    pub store: Option<u64>,
    pub disk: Option<u64>,
}

/// No call fails.
pub const NONE: Failing = Failing {
    folder: None,
    store: None,
    disk: None,
};

/// What the run of a row does with the auxiliary cache.
pub fn aux_use(row: Row<'_>) -> AuxUse {
    if !has_line(row, b"aux-cache") {
        AuxUse::Unused
    } else if has_line(row, b"ignore-aux-cache") {
        AuxUse::Replaced
    } else {
        AuxUse::Updated
    }
}

// The directories of the command line, or else those of a conf file and the system's.
fn scope_of(alloc: Global, row: Row<'_>) -> Result<Scope, NoMemory> {
    if has_line(row, b"only") {
        return Ok(Scope::Only {
            dirs: values(alloc, row, b"only")?,
        });
    }
    Ok(Scope::Root {
        conf: owned_value(alloc, row, b"conf-file")?,
    })
}

/// What the run of a row reads and writes.
pub fn parts_of(alloc: Global, row: Row<'_>) -> Result<RootParts, NoMemory> {
    Ok(RootParts {
        scope: scope_of(alloc, row)?,
        links: !has_line(row, b"no-links"),
        cache: !has_line(row, b"no-cache"),
        aux: aux_use(row),
    })
}

fn list_of(alloc: Global, call: Option<u64>) -> Result<Vec<u64>, NoMemory> {
    let mut calls = Vec::new(alloc);
    if let Some(call) = call {
        calls.push(call)?;
    }
    Ok(calls)
}

/// A store with the row's files.
pub fn store_of(alloc: Global, row: Row<'_>, call: Option<u64>) -> Result<MemStore, SampleFault> {
    let fail = list_of(alloc, call)?;
    Ok(MemStore::new(alloc, held_of(alloc, row)?, fail))
}

// A directory with this tree, and the row's files and caches.
fn with_tree(
    alloc: Global,
    row: Row<'_>,
    tree: Tree,
    failing: Failing,
) -> Result<Option<Devices>, SampleFault> {
    let fail = list_of(alloc, failing.folder)?;
    let store = store_of(alloc, row, failing.store)?;
    let cache = optional_text(alloc, row, b"cache")?;
    let aux = aux_of(alloc, row)?;
    let disk = MemDisk::new(alloc, None, cache, aux, list_of(alloc, failing.disk)?);
    match MemFolder::new(alloc, tree, fail) {
        Some(folder) => Ok(Some(Devices {
            folder,
            store,
            disk,
        })),
        None => Ok(None),
    }
}

/// The row's directory, in which some calls fail. If the row's manifest is malformed, that is said and the result is None.
pub fn devices_of(
    alloc: Global,
    row: Row<'_>,
    failing: Failing,
    differences: &mut Differences,
) -> Result<Option<Devices>, SampleFault> {
    match whole_tree(alloc, row, differences)? {
        Some(tree) => with_tree(alloc, row, tree, failing),
        None => Ok(None),
    }
}

/// Updates a directory.
pub fn update(alloc: Global, row: Row<'_>, devices: &mut Devices) -> Result<Updated, RootFault> {
    let parts = parts_of(alloc, row)?;
    update_root(
        alloc,
        &parts,
        &mut devices.folder,
        &mut devices.store,
        &mut devices.disk,
        TAG,
    )
}
