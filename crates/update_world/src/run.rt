//! The turns of a world.
ghost use Rattle.std.specs.Prelude.{◌≡◌, IfOk, OnOk, OnErr};
ghost use Rattle.std.specs.List.{All};
ghost use Rattle.update_world.specs.Disks.{AreOnDisks};
ghost use Rattle.update_world.specs.Turns.{readings_after};
ghost use Rattle.update_world.specs.Worlds.{HasTaken, HasTakenPart, IsWhole, NeverFalls, IsAfterTurns};

use crate::post::{Readings, Turn};
use crate::world::World;
use lib_types::NoMemory;
use std::alloc::Global;

/// Takes these turns in order, and returns the readings of their loads. If memory runs out, the turns up to that point were
/// taken.
#[tactic(auto, using(crate::proofs::Runs::taken_none, crate::proofs::Runs::taken_all, crate::proofs::Runs::taken_part, crate::proofs::Runs::taken_on, crate::proofs::Runs::rest_on))]
pub fn world_run(alloc: Global, world: &mut World, schedule: &[Turn]) -> Result<Readings, NoMemory>
    ensures readings { IfOk result (λ readings. readings ≡ readings_after world.old.first world.old.posts world.old.turns schedule.now) }
    ensures taken { OnOk result (HasTaken schedule.now world.old world.new) }
    ensures part { OnErr result (HasTakenPart schedule.now world.old world.new) }
    ensures after_turns { IsAfterTurns world.new }
    ensures whole { IfOk result (All (IsWhole world.old.first world.old.posts)) }
    ensures order { IfOk result NeverFalls }
    ensures disk { IfOk result (AreOnDisks world.old.first world.old.posts world.old.turns schedule.now) }
{
    // This call makes `IsAfterTurns` known for an empty schedule.
    let _taken = world.turns();
    let mut readings = Readings::new(alloc);
    for turn in schedule {
        if let Some(reading) = world.take(alloc, *turn)? {
            readings.push(reading)?;
        }
    }
    Ok(readings)
}
