//! One update of a session, with its report.
ghost use Rattle.update_runs.specs.Update.{UpdatesTo, states};

use crate::fault::UpdatingFault;
use image_session::Session;
use std::alloc::Global;
use tree_face::{Disk, Sink, Store, Tag, put_all};

/// The resources of an update: its allocator, and the number of its temporary files.
#[derive(Clone, Copy)]
pub struct Updater {
    pub alloc: Global,
    pub tag: Tag,
}

/// Updates a session once and writes its report. It writes no fault line.
pub fn update_once<S: Store, D: Disk, O: Sink>(
    by: Updater,
    session: Session,
    store: &mut S,
    disk: &mut D,
    sink: &mut O,
) -> Result<Session, UpdatingFault>
    ensures { UpdatesTo by.tag session result
        (states (S.state store.old) (D.state disk.old) (O.state sink.old)) (states (S.state store.new) (D.state disk.new) (O.state sink.new)) }
{
    let (updated, report) = match ldconfig_core::update(by.alloc, session, store, disk, by.tag) {
        Ok(updated) => updated,
        Err(fault) => return Err(UpdatingFault::Update(fault)),
    };
    if put_all(sink, report.text.as_bytes()).is_err() {
        return Err(UpdatingFault::OutputFault);
    }
    Ok(updated)
}
