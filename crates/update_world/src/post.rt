//! Updaters, turns and readings.
use lib_types::{Seq, Text};
use tree_face::Tag;

/// An updater that replaces the cache slot once, by way of its tag's temporary file.
#[derive(Drop)]
pub struct Post {
    pub tag: Tag,
    /// The new content of the slot.
    pub bytes: Text,
}

/// A list of updaters.
pub type Posts = Seq<Post>;

/// One atomic step.
#[derive(Clone, Copy, Debug, PartialEq, Eq)]
pub enum Turn {
    /// The next system call of the updater with this index, counted from 0. Without such an updater, or a call of it, nothing happens.
    Step(u32),
    /// A read of the whole cache slot.
    Load,
}

/// The result of a loader's read.
#[derive(Drop)]
pub struct Reading {
    /// The number of renames so far.
    pub published: u32,
    /// The tag of the updater that made the last rename.
    pub writer: Option<Tag>,
    /// The content of the cache slot.
    pub bytes: Option<Text>,
}

/// A list of readings.
pub type Readings = Seq<Reading>;
