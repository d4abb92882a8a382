//! The machine stops after each writing call of an update. The next update repairs each image that may be left.
use crate::state::{
    Calls, State, calls_of, contents_at, first_lines, is_in, is_repaired, say_number,
};
use elf_samples::SampleFault;
use lib_types::{NoMemory, Texts};
use path_walk::parted;
use root_folder::MemFolder;
use root_update_fixture::{
    Devices, NONE, devices_of, link_node, links_in, put_link, store_of, update, whole_tree,
};
use std::alloc::Global;
use table_rows::{Differences, Row, divide, text};
use tree_face::{MemDisk, Tree};

// Whether the directory of a path is flushed in these calls.
fn is_flushed(calls: &[u8], path: &[u8]) -> bool {
    let dir = parted(path).0;
    let mut rest = calls;
    for _ in 0..calls.len() {
        let (line, after) = divide(b'\n', rest);
        let (word, flushed) = divide(b' ', line);
        if word == b"settle".as_slice() && flushed == dir {
            return true;
        }
        rest = after;
    }
    false
}

// Whether a crash leaves a valid file at the path of a link: the link if it was made, or the old file unless the directory was flushed
// after it.
fn is_link_left(
    alloc: Global,
    link: &[u8],
    is_made: bool,
    calls: &[u8],
    tree: &Tree,
    folder: &MemFolder,
) -> Result<bool, NoMemory> {
    let (path, target) = divide(b' ', link);
    let node = link_node(alloc, target)?;
    let is_old = folder.may_leave(path, tree.node(path));
    let is_new = folder.may_leave(path, Some(&node));
    Ok(is_old != is_flushed(calls, path) && is_new == is_made)
}

// The same for each link, after `writes` writing calls.
fn are_links_left(
    alloc: Global,
    row: Row<'_>,
    writes: u64,
    tree: &Tree,
    folder: &MemFolder,
) -> Result<bool, NoMemory> {
    let made = text(alloc, row, b"made")?;
    let calls = first_lines(alloc, &made, writes)?;
    let links = links_in(alloc, &made)?;
    for (index, link) in links.as_slice().iter().enumerate() {
        let is_made = (index as u64) < writes;
        if !is_link_left(alloc, link.as_bytes(), is_made, &calls, tree, folder)? {
            return Ok(false);
        }
    }
    Ok(true)
}

// The row's tree with the links before this index, or with the links from this index on.
fn tree_with(
    alloc: Global,
    row: Row<'_>,
    index: usize,
    before: bool,
    differences: &mut Differences,
) -> Result<Option<Tree>, NoMemory> {
    let Some(mut tree) = whole_tree(alloc, row, differences)? else {
        return Ok(None);
    };
    let links = links_in(alloc, &text(alloc, row, b"made")?)?;
    for (number, link) in links.as_slice().iter().enumerate() {
        if (number < index) == before {
            put_link(alloc, &mut tree, link.as_bytes())?;
        }
    }
    Ok(Some(tree))
}

// Whether a crash may leave this tree.
fn may_be_left(links: &Texts, tree: &Tree, folder: &MemFolder) -> bool {
    for link in links.as_slice() {
        let (path, _) = divide(b' ', link.as_bytes());
        if !folder.may_leave(path, tree.node(path)) {
            return false;
        }
    }
    true
}

// Whether the next update repairs this tree with this disk.
fn is_image_repaired(
    alloc: Global,
    row: Row<'_>,
    tree: Tree,
    disk: MemDisk,
    differences: &mut Differences,
) -> Result<bool, SampleFault> {
    let store = store_of(alloc, row, None)?;
    match MemFolder::new(alloc, tree, Vec::new(alloc)) {
        Some(folder) => {
            let mut devices = Devices {
                folder,
                store,
                disk,
            };
            Ok(is_repaired(alloc, row, &mut devices, differences)?)
        }
        None => Ok(false),
    }
}

// Whether the next update repairs the tree with the links before this index, and that with the links from it on, if a crash may leave them.
fn is_choice_repaired(
    alloc: Global,
    row: Row<'_>,
    index: usize,
    before: bool,
    devices: &Devices,
    differences: &mut Differences,
) -> Result<bool, SampleFault> {
    let links = links_in(alloc, &text(alloc, row, b"made")?)?;
    let Some(tree) = tree_with(alloc, row, index, before, differences)? else {
        return Ok(false);
    };
    if !may_be_left(&links, &tree, &devices.folder) {
        return Ok(true);
    }
    let disk = devices.disk.image(alloc, 0)?;
    is_image_repaired(alloc, row, tree, disk, differences)
}

// Whether the next update repairs each tree of the row's old and new links that a crash may leave.
fn are_choices_repaired(
    alloc: Global,
    row: Row<'_>,
    devices: &Devices,
    differences: &mut Differences,
) -> Result<bool, SampleFault> {
    let links = links_in(alloc, &text(alloc, row, b"made")?)?;
    for index in 0..links.len() {
        if !is_choice_repaired(alloc, row, index, true, devices, differences)?
            || !is_choice_repaired(alloc, row, index, false, devices, differences)?
        {
            return Ok(false);
        }
    }
    is_choice_repaired(alloc, row, links.len(), true, devices, differences)
}

// Stops the machine after `writes` writing calls in the directory.
fn is_stop_repaired(
    alloc: Global,
    row: Row<'_>,
    writes: u64,
    differences: &mut Differences,
) -> Result<bool, SampleFault> {
    let Some(tree) = whole_tree(alloc, row, differences)? else {
        return Ok(false);
    };
    let Some(mut devices) = devices_of(alloc, row, NONE, differences)? else {
        return Ok(false);
    };
    devices.folder.stop_after(writes);
    if update(alloc, row, &mut devices).is_ok() {
        differences.say(b"the update goes on", b"")?;
        return Ok(false);
    }
    Ok(
        devices.disk.calls().is_empty()
            && are_links_left(alloc, row, writes, &tree, &devices.folder)?
            && are_choices_repaired(alloc, row, &devices, differences)?,
    )
}

// The number of writing calls in the directory before `calls` writing calls of the disk. A disk that stops before its first writing call
// can't be read either.
fn writes_before(calls: u64, all: Calls) -> u64 {
    if calls == 0 && all.disk_reads > 0 {
        0
    } else {
        all.writes
    }
}

// The state after a crash that follows `calls` writing calls of the disk: the links, and the possible contents of each file. Five calls
// replace a file: the fourth renames it, and the fifth flushes its directory.
fn state_after(calls: u64, all: Calls) -> State {
    State {
        writes: writes_before(calls, all),
        cache: contents_at(calls, 4),
        aux: contents_at(calls, 9),
    }
}

// Stops the machine after `calls` writing calls of the disk, and takes the image of this choice. The result is None if the links are
// missing.
fn stopped(
    alloc: Global,
    row: Row<'_>,
    calls: u64,
    choice: u8,
    differences: &mut Differences,
) -> Result<Option<Devices>, SampleFault> {
    let writes = writes_before(calls, calls_of(alloc, row)?);
    let Some(tree) = whole_tree(alloc, row, differences)? else {
        return Ok(None);
    };
    let Some(mut devices) = devices_of(alloc, row, NONE, differences)? else {
        return Ok(None);
    };
    devices.disk.stop_after(calls);
    let _ = update(alloc, row, &mut devices);
    if !are_links_left(alloc, row, writes, &tree, &devices.folder)? {
        return Ok(None);
    }
    let disk = devices.disk.image(alloc, choice)?;
    devices.disk = disk;
    Ok(Some(devices))
}

// Whether the image has a possible state, and the next update repairs it.
fn is_disk_repaired(
    alloc: Global,
    row: Row<'_>,
    calls: u64,
    choice: u8,
    differences: &mut Differences,
) -> Result<bool, SampleFault> {
    let want = state_after(calls, calls_of(alloc, row)?);
    match stopped(alloc, row, calls, choice, differences)? {
        Some(mut devices) => Ok(
            is_in(alloc, row, want, &mut devices, differences)?
                && is_repaired(alloc, row, &mut devices, differences)?,
        ),
        None => Ok(false),
    }
}

// The same for each choice: whether the cache, and whether the auxiliary cache, is the new one if it was renamed but not flushed.
fn are_disks_repaired(
    alloc: Global,
    row: Row<'_>,
    calls: u64,
    differences: &mut Differences,
) -> Result<bool, SampleFault> {
    for choice in [0, 2, 4, 6] {
        if !is_disk_repaired(alloc, row, calls, choice, differences)? {
            say_number(alloc, b"a crash of the disk after ", calls, differences)?;
            return Ok(false);
        }
    }
    Ok(true)
}

// Whether the next update repairs every state that a crash after a writing call in the directory leaves.
fn are_stops_repaired(
    alloc: Global,
    row: Row<'_>,
    differences: &mut Differences,
) -> Result<bool, SampleFault> {
    for writes in 0..calls_of(alloc, row)?.writes {
        if !is_stop_repaired(alloc, row, writes, differences)? {
            say_number(
                alloc,
                b"a crash in the directory after ",
                writes,
                differences,
            )?;
            return Ok(false);
        }
    }
    Ok(true)
}

/// Whether the next update repairs every image that a crash after any writing call may leave.
pub(crate) fn are_crashes_repaired(
    alloc: Global,
    row: Row<'_>,
    differences: &mut Differences,
) -> Result<bool, SampleFault> {
    if !are_stops_repaired(alloc, row, differences)? {
        return Ok(false);
    }
    for calls in 0..calls_of(alloc, row)?.disk_writes.saturating_add(1) {
        if !are_disks_repaired(alloc, row, calls, differences)? {
            return Ok(false);
        }
    }
    Ok(true)
}
