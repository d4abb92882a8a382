//! An image that is loaded, as text.
use aux_cache::Stamp;
use image_session::Session;
use lib_types::{Analysis, NoMemory};
use std::alloc::Global;

// Adds a library's ABI and soname (`-` for none), or the defect of a file that isn't a library.
fn put_analysis(alloc: Global, text: &mut Vec<u8>, analysis: &Analysis) -> Result<(), NoMemory> {
    match analysis {
        Analysis::Lib { abi, soname } => {
            let shown = format!(in alloc; "{abi:?} ")?;
            text.extend_from_slice(shown.as_bytes())?;
            match soname {
                Some(soname) => text.extend_from_slice(soname.as_bytes())?,
                None => text.push(b'-')?,
            }
        }
        Analysis::Not(defect) => {
            let shown = format!(in alloc; "{defect:?}")?;
            text.extend_from_slice(shown.as_bytes())?;
        }
    }
    Ok(())
}

// Adds the line of a stamp: device, inode, ctime, size and analysis.
fn put_stamp(alloc: Global, text: &mut Vec<u8>, stamp: &Stamp) -> Result<(), NoMemory> {
    let id = &stamp.id;
    let shown = format!(in alloc; "stamp {} {} {} {} ", id.dev, id.inode, id.ctime, id.size)?;
    text.extend_from_slice(shown.as_bytes())?;
    put_analysis(alloc, text, &stamp.analysis)?;
    text.push(b'\n')?;
    Ok(())
}

// Adds the line with the offset at which the auxiliary cache is malformed, if it is.
fn put_damage(alloc: Global, text: &mut Vec<u8>, damaged: Option<u64>) -> Result<(), NoMemory> {
    if let Some(at) = damaged {
        let shown = format!(in alloc; "damaged {at}\n")?;
        text.extend_from_slice(shown.as_bytes())?;
    }
    Ok(())
}

/// The mark of edits, the line of a malformed auxiliary cache, the stamps, and the tree as a manifest.
pub(crate) fn shown(alloc: Global, image: &Session) -> Result<Vec<u8>, NoMemory> {
    let mut text = Vec::new(alloc);
    if image.edited {
        text.extend_from_slice(b"edited\n")?;
    }
    put_damage(alloc, &mut text, image.damaged)?;
    for stamp in image.stamps.as_slice() {
        put_stamp(alloc, &mut text, stamp)?;
    }
    text.extend_from_slice(&mtree_manifest::write(alloc, &image.tree)?)?;
    Ok(text)
}
