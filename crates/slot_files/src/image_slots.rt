//! The files of an image's slots. The auxiliary cache may be outside the image.
use crate::slot_files::{SlotFiles, Written};
use device_rules::{RunId, SlotPaths};
use image_folder::HeldFile;
use lib_types::NoMemory;
use standard_streams::Streams;
use std::alloc::Global;
use std::io::{self, Error};
use std::rt::Runtime;
use tree_face::{Slot, Tag};

/// The files of an image's slots. The auxiliary cache may be in another directory.
#[derive(Drop)]
pub struct ImageSlots<R: Runtime> {
    image: SlotFiles<R>,
    aux: Option<SlotFiles<R>>,
}

impl<R: Runtime> ImageSlots<R> {
    /// The slots of the image in the directory `root`, at these paths in it. The auxiliary cache is `aux` if it is given.
    pub fn new(
        rt: R,
        root: &str,
        run: RunId,
        paths: SlotPaths,
        aux: Option<SlotFiles<R>>,
    ) -> Result<ImageSlots<R>, NoMemory> {
        let image = SlotFiles::new(rt, root, run, paths)?;
        Ok(ImageSlots { image, aux })
    }

    /// The cache's file, below the root.
    pub fn cache_file(&self) -> &str {
        self.image.cache_file()
    }

    /// What was replaced, and the entry counts of the caches.
    pub fn written(&self) -> Written {
        self.image.written()
    }
}

impl<R: Runtime> ImageSlots<R>
where
    R::File: HeldFile,
{
    /// As `SlotFiles::read`.
    pub fn read(&mut self, alloc: Global, slot: Slot) -> io::Result<Option<Vec<u8>>> {
        match (&mut self.aux, slot) {
            (Some(aux), Slot::Aux) => aux.read(alloc, slot),
            _ => self.image.read(alloc, slot),
        }
    }

    /// As `SlotFiles::require_place`.
    pub fn require_place(&mut self, slot: Slot) -> io::Result<()> {
        match (&mut self.aux, slot) {
            (Some(aux), Slot::Aux) => aux.require_place(slot),
            _ => self.image.require_place(slot),
        }
    }

    /// As `SlotFiles::create`.
    pub fn create(&mut self, tag: Tag, slot: Slot) -> io::Result<()> {
        match (&mut self.aux, slot) {
            (Some(aux), Slot::Aux) => aux.create(tag, slot),
            _ => self.image.create(tag, slot),
        }
    }

    /// As `SlotFiles::append`.
    pub fn append(&mut self, tag: Tag, slot: Slot, bytes: &[u8]) -> io::Result<()> {
        match (&mut self.aux, slot) {
            (Some(aux), Slot::Aux) => aux.append(tag, slot, bytes),
            _ => self.image.append(tag, slot, bytes),
        }
    }

    /// As `SlotFiles::sync`.
    pub fn sync(&mut self, tag: Tag, slot: Slot) -> io::Result<()> {
        match (&mut self.aux, slot) {
            (Some(aux), Slot::Aux) => aux.sync(tag, slot),
            _ => self.image.sync(tag, slot),
        }
    }

    /// As `SlotFiles::publish`.
    pub fn publish(&mut self, tag: Tag, slot: Slot) -> io::Result<()> {
        match (&mut self.aux, slot) {
            (Some(aux), Slot::Aux) => aux.publish(tag, slot),
            _ => self.image.publish(tag, slot),
        }
    }

    /// As `SlotFiles::settle`.
    pub fn settle(&mut self, slot: Slot) -> io::Result<()> {
        match (&mut self.aux, slot) {
            (Some(aux), Slot::Aux) => aux.settle(slot),
            _ => self.image.settle(slot),
        }
    }
}

impl<R: Runtime + Streams> ImageSlots<R>
where
    R::File: HeldFile,
{
    /// As `SlotFiles::fail`, about the call for this slot that failed.
    pub fn fail(&mut self, slot: Slot, call: &str, error: Error) {
        match (&mut self.aux, slot) {
            (Some(aux), Slot::Aux) => aux.fail(call, error),
            _ => self.image.fail(call, error),
        }
    }
}
