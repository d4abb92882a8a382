//! A world of updaters and loaders.
ghost use Rattle.std.specs.Prelude.{◌≡◌, ◌<◌, ◌^◌, ◌∷◌, [], None, IfOk, IfErr, OnOk, OnErr, length};
ghost use Rattle.std.specs.Option.{option_to_list};
ghost use Rattle.update_world.specs.Disks.{HoldsExactly, LeavesExactly};
ghost use Rattle.update_world.specs.Turns.{calls, left, read_in, reading_after, repeated};
ghost use Rattle.update_world.specs.Worlds.{HasTaken, IsFaultOf, IsAfterTurns, new_world};

use crate::fault::WorldFault;
use crate::machine::Machine;
use crate::post::{Posts, Reading, Readings, Turn};
use crate::readings::{readings_from, take_turn};
use crate::tags::repeated_tag;
use lib_types::{NoMemory, Text};
use std::alloc::Global;
use std::marker::Model;

/// Updaters that replace the cache slot, and loaders that read it, taken one atomic step at a time.
#[derive(Drop)]
pub struct World {
    first: Option<Text>,
    posts: Posts,
    turns: Vec<Turn>,
    machine: Machine,
}

impl Model for World {
    ghost use Rattle.update_world.specs.Kept.{IsKept, world_of};
    ghost use Rattle.update_world.specs.Worlds.{Worlds};

    ghost Value = { Worlds };

    ghost view = { λ w. world_of w.first w.posts w.turns.items w.machine };

    ghost invariant = { λ w. IsKept w.first w.posts w.turns.items w.machine };
}

// A world before the first turn.
fn begin(alloc: Global, first: Option<Text>, posts: Posts) -> Result<World, NoMemory>
    requires few { length posts < 2 ^ 32 }
    requires different { repeated posts ≡ None }
    ensures made { IfOk result (λ world. world ≡ new_world first posts) }
    ensures after_turns { IfOk result IsAfterTurns }
{
    let machine = Machine::new(alloc, Text::copy_if_some(alloc, &first)?, posts.as_slice())?;
    Ok(World {
        first,
        posts,
        turns: Vec::new(alloc),
        machine,
    })
}

impl World {
    /// A world before the first turn, with this content in the cache slot.
    pub fn new(alloc: Global, first: Option<Text>, posts: Posts) -> Result<World, WorldFault>
        ensures made { IfOk result (λ world. world ≡ new_world first posts) }
        ensures after_turns { IfOk result IsAfterTurns }
        ensures different { OnOk result (repeated posts ≡ None) }
        ensures fault { IfErr result (IsFaultOf posts) }
    {
        if let Some(tag) = repeated_tag(alloc, posts.as_slice())? {
            return Err(WorldFault::SameTag { tag });
        }
        if posts.len() > u32::MAX as usize {
            return Err(WorldFault::NoMemory);
        }
        Ok(begin(alloc, first, posts)?)
    }

    /// The turns so far.
    #[tactic(auto, using(crate::proofs::Kept::after_turns))]
    pub fn turns(&self) -> &[Turn]
        ensures turns { result.now ≡ self.now.turns }
        ensures after_turns { IsAfterTurns self.now }
        ensures different { repeated self.now.posts ≡ None }
    {
        &self.turns
    }

    // Takes a turn. If the turn is a load, returns the reading.
    #[tactic(auto, using(crate::proofs::Kept::seen_is, crate::proofs::Kept::after_turns))]
    pub(crate) fn take(&mut self, alloc: Global, turn: Turn) -> Result<Option<Reading>, NoMemory>
        ensures read { IfOk result (λ r. option_to_list r ≡ read_in self.old.first self.old.posts self.old.turns turn) }
        ensures taken { OnOk result (HasTaken (turn ∷ []) self.old self.new) }
        ensures refused { OnErr result (self.new ≡ self.old) }
        ensures after_turns { IsAfterTurns self.new }
    {
        self.turns.reserve(1)?;
        let read = take_turn(alloc, &mut self.machine, self.posts.as_slice(), turn)?;
        // The space was reserved above.
        self.turns.push(turn)?;
        Ok(read)
    }

    /// The contents that a crash at this moment may leave in the cache slot, in the order of the renames.
    #[tactic(auto, using(crate::proofs::Left::settled_most))]
    pub fn left(&self, alloc: Global) -> Result<Readings, NoMemory>
        ensures left { IfOk result (λ readings. readings ≡ left self.now.first self.now.posts self.now.turns) }
        ensures crash { IfOk result (LeavesExactly self.now.first self.now.posts (calls (length self.now.posts) self.now.turns)) }
        ensures held { HoldsExactly self.now.first self.now.posts (calls (length self.now.posts) self.now.turns) (reading_after self.now.first self.now.posts self.now.turns).bytes }
    {
        readings_from(
            alloc,
            &self.first,
            self.posts.as_slice(),
            self.machine.published(),
            self.machine.settled(),
        )
    }
}
