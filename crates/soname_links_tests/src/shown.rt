//! Lists as texts of one line, each item followed by a bar.
use lib_types::{Entries, NoMemory, Texts};
use link_plan::{Marks, Plan};
use std::alloc::Global;

// The index of a search directory. The tests have fewer than ten.
fn put_place(out: &mut Vec<u8>, place: u32) -> Result<(), NoMemory> {
    out.push(b'0' + (place % 10) as u8)?;
    out.push(b' ')?;
    Ok(())
}

/// The texts.
pub(crate) fn texts_in(alloc: Global, texts: &Texts) -> Result<Vec<u8>, NoMemory> {
    let mut out = Vec::new(alloc);
    for text in texts.as_slice() {
        out.extend_from_slice(text.as_bytes())?;
        out.push(b'|')?;
    }
    Ok(out)
}

/// The links with their search directories and texts.
pub(crate) fn plan_in(alloc: Global, plan: &Plan) -> Result<Vec<u8>, NoMemory> {
    let mut out = Vec::new(alloc);
    for planned in plan.as_slice() {
        put_place(&mut out, planned.place)?;
        out.extend_from_slice(planned.path.as_bytes())?;
        out.push(b'>')?;
        out.extend_from_slice(planned.file.as_bytes())?;
        out.push(b'|')?;
    }
    Ok(out)
}

/// The marks with their search directories.
pub(crate) fn marks_in(alloc: Global, marks: &Marks) -> Result<Vec<u8>, NoMemory> {
    let mut out = Vec::new(alloc);
    for mark in marks.as_slice() {
        put_place(&mut out, mark.place)?;
        out.extend_from_slice(mark.soname.as_bytes())?;
        out.push(b'|')?;
    }
    Ok(out)
}

/// The entries with their search directories and paths.
pub(crate) fn entries_in(alloc: Global, entries: &Entries) -> Result<Vec<u8>, NoMemory> {
    let mut out = Vec::new(alloc);
    for entry in entries.as_slice() {
        put_place(&mut out, entry.place)?;
        out.extend_from_slice(entry.soname.as_bytes())?;
        out.push(b'=')?;
        out.extend_from_slice(entry.path.as_bytes())?;
        out.push(b'|')?;
    }
    Ok(out)
}
