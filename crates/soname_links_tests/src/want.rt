//! The expected results for an image.
use crate::fault::ImageFault;
use crate::image::Image;
use crate::shown::{entries_in, marks_in, plan_in, texts_in};
use library_files::dangling;
use soname_links::{apply, blocked, entries, is_plan, plan};
use std::alloc::Global;

/// The expected results for an image: planned links, blocked sonames, dangling links, and entries of the tree with the links.
#[derive(Clone, Copy)]
pub(crate) struct Want<'a> {
    pub(crate) plan: &'a str,
    pub(crate) blocked: &'a str,
    pub(crate) dangling: &'a str,
    pub(crate) entries: &'a str,
}

// Whether the planned links and the blocked sonames are the expected ones. Puts the links.
fn plans(alloc: Global, image: &mut Image, want: &Want<'_>) -> Result<bool, ImageFault> {
    let links = plan(alloc, &image.tree, &image.dirs, &image.table)?;
    let marks = blocked(alloc, &image.tree, &image.dirs, &image.table)?;
    if !is_plan(&links) {
        return Err(ImageFault::NoImage);
    }
    apply(alloc, &mut image.tree, &links)?;
    Ok(
        plan_in(alloc, &links)?.as_slice() == want.plan.as_bytes()
            && marks_in(alloc, &marks)?.as_slice() == want.blocked.as_bytes(),
    )
}

/// Whether an image has the expected results, after its planned links are put.
pub(crate) fn gives(alloc: Global, image: &mut Image, want: &Want<'_>) -> Result<bool, ImageFault> {
    let planned = plans(alloc, image, want)?;
    let links = dangling(alloc, &image.tree, &image.dirs)?;
    let found = entries(alloc, &image.tree, &image.dirs, &image.table)?;
    Ok(
        planned
            && texts_in(alloc, &links)?.as_slice() == want.dangling.as_bytes()
            && entries_in(alloc, &found)?.as_slice() == want.entries.as_bytes(),
    )
}
