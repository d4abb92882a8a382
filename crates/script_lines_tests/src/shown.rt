//! The meaning of a line, as text.
use lib_types::NoMemory;
use mtree_manifest::{EntryLineFault, LineKind};
use script_lines::ScriptLine;
use std::alloc::Global;
use tree_face::{Id, Node};

fn put_id(alloc: Global, text: &mut Vec<u8>, id: &Id) -> Result<(), NoMemory> {
    let shown = format!(in alloc;
        " dev={} inode={} ctime={} size={}",
        id.dev, id.inode, id.ctime, id.size
    )?;
    text.extend_from_slice(shown.as_bytes())?;
    Ok(())
}

fn put_node(alloc: Global, text: &mut Vec<u8>, node: &Node) -> Result<(), NoMemory> {
    match node {
        Node::Dir => text.extend_from_slice(b" dir")?,
        Node::File { key, id } => {
            text.extend_from_slice(b" file ")?;
            text.extend_from_slice(key.as_bytes())?;
            if let Some(id) = id {
                put_id(alloc, text, id)?;
            }
        }
        Node::Link { target } => {
            text.extend_from_slice(b" link ")?;
            text.extend_from_slice(target.as_bytes())?;
        }
    }
    Ok(())
}

fn put_line(alloc: Global, text: &mut Vec<u8>, line: &ScriptLine) -> Result<(), NoMemory> {
    match line {
        ScriptLine::Ignored => text.extend_from_slice(b"ignored")?,
        ScriptLine::Put(None) => text.extend_from_slice(b"put nothing")?,
        ScriptLine::Put(Some(entry)) => {
            text.extend_from_slice(b"put ")?;
            text.extend_from_slice(entry.0.as_bytes())?;
            put_node(alloc, text, &entry.1)?;
        }
        ScriptLine::Drop(path) => {
            text.extend_from_slice(b"drop ")?;
            text.extend_from_slice(path.as_bytes())?;
        }
        ScriptLine::Update => text.extend_from_slice(b"update")?,
    }
    Ok(())
}

fn name_of(kind: LineKind) -> &'static [u8] {
    match kind {
        LineKind::BadEscape => b"BadEscape",
        LineKind::BadLine => b"BadLine",
        LineKind::BadNumber => b"BadNumber",
        LineKind::BadType => b"BadType",
        LineKind::NoTarget => b"NoTarget",
    }
}

/// The meaning of a line, or its fault, and a line feed.
pub(crate) fn shown(
    alloc: Global,
    read: Result<ScriptLine, EntryLineFault>,
) -> Result<Vec<u8>, NoMemory> {
    let mut text = Vec::new(alloc);
    match read {
        Ok(line) => put_line(alloc, &mut text, &line)?,
        Err(EntryLineFault::Bad(kind)) => text.extend_from_slice(name_of(kind))?,
        Err(EntryLineFault::NoMemory) => return Err(NoMemory),
    }
    text.push(b'\n')?;
    Ok(text)
}
