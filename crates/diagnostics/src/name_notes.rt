//! Lines on the error output about names in a cache that the loader can't search for.
use cache_reader::{CacheView, EntryView};
use image_folder::HeldFile;
use searchable_names::is_searchable;
use standard_streams::{ErrorLines, Streams, printable};
use std::io;
use std::rt::Runtime;
use std::str::from_utf8;
use tree_real::FolderDisk;

/// Names each entry of the cache that was written whose name breaks the loader's search, so that it can miss other entries. With `-r` and
/// `-n` no such entry is made.
pub fn note_names<R: Runtime + AllocGlobal + Streams>(
    rt: &R,
    disk: &mut FolderDisk<R>,
) -> io::Result<()>
where
    R::File: HeldFile,
{
    let Some(bytes) = disk.cache_bytes(rt.alloc())? else {
        return Ok(());
    };
    let Ok(cache) = CacheView::parse(&bytes) else {
        return Ok(());
    };
    let mut lines = ErrorLines::new(rt);
    let added = add_entries(&mut lines, &cache);
    lines.write()?;
    added
}

fn add_entries<R: Runtime + Streams>(
    lines: &mut ErrorLines<'_, R>,
    cache: &CacheView<'_>,
) -> io::Result<()> {
    for i in 0..cache.len() {
        if let Some(entry) = cache.entry(i) {
            add_entry(lines, &entry)?;
        }
    }
    Ok(())
}

fn add_entry<R: Runtime + Streams>(
    lines: &mut ErrorLines<'_, R>,
    entry: &EntryView<'_>,
) -> io::Result<()> {
    if is_searchable(entry.name) {
        return Ok(());
    }
    let rt = lines.rt();
    let name = printable(rt, from_utf8(entry.name).unwrap_or(""))?;
    let path = printable(rt, from_utf8(entry.path).unwrap_or(""))?;
    let line = format!(in rt.alloc();
        "ldconfig: etc/ld.so.cache: {name} => {path}: the loader can miss other entries, because it can't search for a name with a byte above 127 or a number of more than 9 digits\n"
    )?;
    lines.add(line.as_str())
}
