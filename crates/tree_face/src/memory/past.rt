//! The history of the slots of a disk in memory.
ghost use Rattle.std.specs.Prelude.{◌≡◌, ◌++◌, ◌∷◌, [], true, false, OnErr, MatchResult};
ghost use Rattle.std.specs.Option.{option_map, option_copied};
ghost use Rattle.tree_face.specs.Temporaries.{bytes_of};

use super::temporaries::Temporary;
use crate::Slot;
use lib_types::NoMemory;
use std::alloc::Global;

/// A change of a slot's content, or of what a crash leaves in it.
#[derive(Drop)]
pub enum Change {
    /// This file was renamed into place.
    Published(Slot, Option<Temporary>),
    Settled(Slot),
}

/// The initial contents of the slots, and then each change.
#[derive(Drop)]
pub struct Past {
    manifest: Option<Vec<u8>>,
    cache: Option<Vec<u8>>,
    aux: Option<Vec<u8>>,
    changes: Vec<Change>,
}

/// A slot's current content, and its content when it was last flushed.
#[derive(Clone, Copy)]
pub struct Held<'a> {
    pub now: Option<&'a [u8]>,
    pub settled: Option<&'a [u8]>,
}

// The bytes of a content.
fn content_of(content: &Option<Vec<u8>>) -> Option<&[u8]>
    ensures { option_copied result ≡ option_map (λ v. v.items) content.now }
{
    match content {
        Some(bytes) => Some(bytes.as_slice()),
        None => None,
    }
}

// The bytes of a published file.
fn published_bytes(file: &Option<Temporary>) -> Option<&[u8]>
    ensures { option_copied result ≡ bytes_of file.now }
{
    match file {
        Some(file) => Some(file.bytes.as_slice()),
        None => None,
    }
}

impl<'a> Held<'a> {
    ghost use Rattle.tree_face.specs.Past.{holding_after, holding_of};

    // The slot's contents after a change.
    fn after(self, slot: Slot, change: &'a Change) -> Held<'a>
        ensures { holding_of result ≡ holding_after slot (holding_of self.entry) change.now }
    {
        match change {
            Change::Published(changed, file) if *changed == slot => Held {
                now: published_bytes(file),
                settled: self.settled,
            },
            Change::Settled(changed) if *changed == slot => Held {
                now: self.now,
                settled: self.now,
            },
            _ => self,
        }
    }
}

impl Past {
    ghost use Rattle.tree_face.specs.Past.{changes_of, first_of, holding_in, holding_of, IsChangedBy, KeepsPast};

    /// Slots that hold these contents, all flushed.
    pub fn new(
        alloc: Global,
        manifest: Option<Vec<u8>>,
        cache: Option<Vec<u8>>,
        aux: Option<Vec<u8>>,
    ) -> Past
        ensures manifest { first_of result Slot.Manifest ≡ option_map (λ v. v.items) manifest }
        ensures cache { first_of result Slot.Cache ≡ option_map (λ v. v.items) cache }
        ensures aux { first_of result Slot.Aux ≡ option_map (λ v. v.items) aux }
        ensures changes { changes_of result ≡ [] }
    {
        Past {
            manifest,
            cache,
            aux,
            changes: Vec::new(alloc),
        }
    }

    // The slot's initial content.
    fn first(&self, slot: Slot) -> Option<&[u8]>
        ensures { option_copied result ≡ first_of self.now slot }
    {
        match slot {
            Slot::Manifest => content_of(&self.manifest),
            Slot::Cache => content_of(&self.cache),
            Slot::Aux => content_of(&self.aux),
        }
    }

    /// What the slot holds, and what it held when it was settled.
    pub fn held(&self, slot: Slot) -> Held<'_>
        ensures { holding_of result ≡ holding_in self.now slot }
    {
        let first = self.first(slot);
        let mut held = Held {
            now: first,
            settled: first,
        };
        for change in &self.changes {
            held = held.after(slot, change);
        }
        held
    }

    /// Reserves memory for one more change.
    pub fn reserve(&mut self) -> Result<(), NoMemory>
        ensures { KeepsPast self.old self.new }
    {
        self.changes.reserve(1)?;
        Ok(())
    }

    /// Adds a change.
    pub fn add(&mut self, change: Change) -> Result<(), NoMemory>
        ensures { MatchResult result (λ _. IsChangedBy change self.old self.new) (λ _. KeepsPast self.old self.new) }
    {
        self.changes.push(change)?;
        Ok(())
    }
}
