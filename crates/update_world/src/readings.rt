//! The readings after renames.
ghost use Rattle.std.specs.Prelude.{◌≡◌, ◌<◌, ◌^◌, ◌-◌, ◌≤◌, ◌+◌, length, map, take, ◌∷◌, [], IfOk, OnOk, OnErr};
ghost use Rattle.std.specs.List.{range_with_len};
ghost use Rattle.std.specs.Option.{option_copied, option_map, option_to_list};
ghost use Rattle.update_world.specs.Kept.{after_turn, seen};
ghost use Rattle.update_world.specs.Turns.{last_of, reading};
ghost use Rattle.update_world.specs.declared.post.Turn.TheVariants.{Load};

use crate::machine::Machine;
use crate::post::{Post, Reading, Readings, Turn};
use lib_types::{NoMemory, Text};
use std::alloc::Global;
use tree_face::Tag;

// The last of these updaters.
fn last_of<'a>(posts: &'a [Post], published: &[u32]) -> Option<&'a Post>
    ensures { option_copied result ≡ last_of posts.now published.now }
{
    posts.get(*published.last()? as usize)
}

// The tag of the last of these updaters.
fn writer_of(posts: &[Post], published: &[u32]) -> Option<Tag>
    ensures { result ≡ option_map (λ p. p.tag) (last_of posts.now published.now) }
{
    match last_of(posts, published) {
        Some(post) => Some(post.tag),
        None => None,
    }
}

// The result of a loader's read.
fn load(alloc: Global, machine: &Machine, posts: &[Post]) -> Result<Reading, NoMemory>
    requires { length machine.now.published < 2 ^ 32 }
    ensures { IfOk result (λ r. r ∷ [] ≡ seen posts.now Load machine.now) }
{
    Ok(Reading {
        published: machine.published().len() as u32,
        writer: writer_of(posts, machine.published()),
        bytes: Text::copy_if_some(alloc, machine.cache())?,
    })
}

/// Takes a turn. If the turn is a load, returns the reading.
pub(crate) fn take_turn(
    alloc: Global,
    machine: &mut Machine,
    posts: &[Post],
    turn: Turn,
) -> Result<Option<Reading>, NoMemory>
    requires few { length machine.old.published < 2 ^ 32 }
    requires files { length machine.old.temporaries ≡ length posts.now }
    requires each { length machine.old.progress ≡ length posts.now }
    ensures read { IfOk result (λ r. option_to_list r ≡ seen posts.now turn machine.old) }
    ensures done { OnOk result (machine.new ≡ after_turn posts.now turn machine.old) }
    ensures refused { OnErr result (machine.new ≡ machine.old) }
{
    match turn {
        Turn::Step(index) => {
            machine.step(alloc, posts, index)?;
            Ok(None)
        }
        Turn::Load => Ok(Some(load(alloc, machine, posts)?)),
    }
}

// The reading after these renames.
fn reading(
    alloc: Global,
    first: &Option<Text>,
    posts: &[Post],
    published: &[u32],
) -> Result<Reading, NoMemory>
    requires { length published.now < 2 ^ 32 }
    ensures { IfOk result (λ r. r ≡ reading first.now posts.now published.now) }
{
    let bytes = match last_of(posts, published) {
        Some(post) => Some(Text::copy_of(alloc, post.bytes.as_bytes())?),
        None => Text::copy_if_some(alloc, first)?,
    };
    Ok(Reading {
        published: published.len() as u32,
        writer: writer_of(posts, published),
        bytes,
    })
}

/// The readings after the first `from` of these renames and after each further one.
#[tactic(auto, using(crate::proofs::Left::mapped_more))]
pub(crate) fn readings_from(
    alloc: Global,
    first: &Option<Text>,
    posts: &[Post],
    published: &[u32],
    from: usize,
) -> Result<Readings, NoMemory>
    requires few { length published.now < 2 ^ 32 }
    requires within { from ≤ length published.now }
    ensures { IfOk result (λ rs. rs ≡ map (λ n. reading first.now posts.now (take n published.now)) (range_with_len from (length published.now + 1 - from))) }
{
    let mut readings = Readings::new(alloc);
    for count in from..published.len() + 1 {
        readings.push(reading(alloc, first, posts, &published[..count])?)?;
    }
    Ok(readings)
}
