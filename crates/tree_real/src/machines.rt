//! The files for machines that no cache is built for.
use std::rt::Runtime;

/// The number of files that have a library's name and are for other machines, and the first of them.
#[derive(Drop)]
pub struct Machines<R: Runtime> {
    pub files: u64,
    pub first: Option<FirstFile<R>>,
}

/// A file for another machine.
#[derive(Drop)]
pub struct FirstFile<R: Runtime> {
    /// Its name below the image.
    pub path: String<R::A>,
    /// The machine number in ELF.
    pub number: u16,
}
