//! Readings of the cache file while two updaters replace it.
ghost use Rattle.std.specs.Prelude.{◌≡◌, IfOk};
ghost use Rattle.std.specs.List.{count_by};
ghost use Rattle.sample_runs.specs.Text.{is_by, is_first, posts, readings, schedule};

use lib_types::{NoMemory, Text};
use std::alloc::Global;
use tree_face::Tag;
use update_world::{Post, Posts, Reading, Readings, Turn, World, world_run};

// Each updater makes a step, with a loader after each step, five times.
const SCHEDULE: [Turn; 20] = [
    Turn::Step(0),
    Turn::Load,
    Turn::Step(1),
    Turn::Load,
    Turn::Step(0),
    Turn::Load,
    Turn::Step(1),
    Turn::Load,
    Turn::Step(0),
    Turn::Load,
    Turn::Step(1),
    Turn::Load,
    Turn::Step(0),
    Turn::Load,
    Turn::Step(1),
    Turn::Load,
    Turn::Step(0),
    Turn::Load,
    Turn::Step(1),
    Turn::Load,
];

// The updaters: one of the second cache with tag 0, and one of the first cache with tag 1.
fn posts(alloc: Global, first: &[u8], second: &[u8]) -> Result<Posts, NoMemory>
    ensures { IfOk result (λ list. list ≡ posts first.now second.now) }
{
    let mut list = Posts::new(alloc);
    list.push(Post {
        tag: Tag(0),
        bytes: Text::copy_of(alloc, second)?,
    })?;
    list.push(Post {
        tag: Tag(1),
        bytes: Text::copy_of(alloc, first)?,
    })?;
    Ok(list)
}

/// What loaders read while both updaters replace the first cache.
#[tactic(auto, unfolding(crate::specs::Text::readings))]
pub(crate) fn readings(alloc: Global, first: &[u8], second: &[u8]) -> Result<Readings, NoMemory>
    ensures { IfOk result (λ list. list ≡ readings first.now second.now) }
{
    let list = posts(alloc, first, second)?;
    let Ok(mut world) = World::new(alloc, Some(Text::copy_of(alloc, first)?), list) else {
        return Err(NoMemory);
    };
    world_run(alloc, &mut world, &SCHEDULE)
}

fn is_first(reading: &Reading) -> bool
    ensures { result ≡ is_first reading.now }
{
    reading.writer.is_none()
}

fn is_by(reading: &Reading, tag: u16) -> bool
    ensures { result ≡ is_by tag reading.now }
{
    match reading.writer {
        Some(writer) => writer.0 == tag,
        None => false,
    }
}

/// The number of readings that gave the first cache.
pub(crate) fn count_first(readings: &Readings) -> usize
    ensures { result ≡ count_by is_first readings.now }
{
    readings.as_slice().iter().filter(|r| is_first(r)).count()
}

/// The number of readings that gave the cache of the updater with this tag.
pub(crate) fn count_by(readings: &Readings, tag: u16) -> usize
    ensures { result ≡ count_by (is_by tag) readings.now }
{
    readings.as_slice().iter().filter(|r| is_by(r, tag)).count()
}
