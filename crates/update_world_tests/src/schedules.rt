//! Every schedule of two updaters, and a sample of those of three.
use crate::plain::{FIRST, POSTS, push_left, push_read};
use crate::shown::{ROUND, Seen};
use lib_types::{NoMemory, Text};
use std::alloc::Global;
use std::io;
use std::io::ErrorKind;
use tree_face::Tag;
use update_world::{Post, Posts, Turn, World, WorldFault};

fn world_of(alloc: Global, posts: usize) -> Result<World, WorldFault> {
    let mut list = Posts::new(alloc);
    for (tag, bytes) in POSTS.iter().take(posts) {
        list.push(Post {
            tag: Tag(*tag),
            bytes: Text::copy_of(alloc, bytes)?,
        })?;
    }
    World::new(alloc, Some(Text::copy_of(alloc, FIRST)?), list)
}

fn seen_by(alloc: Global, posts: usize, turns: &[Turn]) -> Result<Seen, WorldFault> {
    let mut world = world_of(alloc, posts)?;
    let mut seen = Seen::new(alloc);
    for turn in turns {
        seen.take(alloc, &mut world, &[*turn])?;
    }
    Ok(seen)
}

fn counted_again(alloc: Global, posts: usize, turns: &[Turn]) -> Result<Seen, NoMemory> {
    let mut seen = Seen::new(alloc);
    push_read(alloc, &mut seen.read, turns, posts)?;
    for at in 0..turns.len() {
        seen.left.extend_from_slice(ROUND)?;
        push_left(alloc, &mut seen.left, turns, at + 1, posts)?;
    }
    Ok(seen)
}

// Whether each reading, and what a crash leaves after each turn, is the independently computed one.
fn is_right(alloc: Global, posts: usize, turns: &[Turn]) -> Result<bool, WorldFault> {
    let want = counted_again(alloc, posts, turns)?;
    let got = seen_by(alloc, posts, turns)?;
    Ok(got.read.as_slice() == want.read.as_slice() && got.left.as_slice() == want.left.as_slice())
}

// The turns of two updaters: each bit of `order` selects the updater. There is a load before, between and after the turns.
fn turns_of_two(alloc: Global, order: u32) -> Result<Vec<Turn>, NoMemory> {
    let mut turns = Vec::new(alloc);
    turns.push(Turn::Load)?;
    for place in 0u32..10 {
        turns.push(Turn::Step((order >> place) & 1))?;
        turns.push(Turn::Load)?;
    }
    Ok(turns)
}

fn next_draw(state: u32) -> u32 {
    state.wrapping_mul(1_103_515_245).wrapping_add(12_345) % (1 << 31)
}

// Pseudo-random turns: steps of three updaters, steps of an updater that doesn't exist, and loads.
fn turns_of_three(alloc: Global, seed: u32) -> Result<Vec<Turn>, NoMemory> {
    let mut turns = Vec::new(alloc);
    let mut state = seed;
    for _ in 0..40 {
        state = next_draw(state);
        let drawn = (state >> 16) % 6;
        turns.push(if drawn < 4 {
            Turn::Step(drawn)
        } else {
            Turn::Load
        })?;
    }
    Ok(turns)
}

// The number of schedules that were tried, and the number that differ.
#[derive(Clone, Copy)]
struct Counts {
    tried: u32,
    differ: u32,
}

fn counted(counts: Counts, is_right: bool) -> Counts {
    Counts {
        tried: counts.tried.saturating_add(1),
        differ: counts.differ.saturating_add(u32::from(!is_right)),
    }
}

const NONE: Counts = Counts {
    tried: 0,
    differ: 0,
};

fn try_two(alloc: Global) -> Result<Counts, WorldFault> {
    let mut counts = NONE;
    for order in 0u32..1024 {
        if order.count_ones() == 5 {
            let turns = turns_of_two(alloc, order)?;
            counts = counted(counts, is_right(alloc, 2, &turns)?);
        }
    }
    Ok(counts)
}

fn try_three(alloc: Global) -> Result<Counts, WorldFault> {
    let mut counts = NONE;
    for seed in 0u32..300 {
        let turns = turns_of_three(alloc, seed)?;
        counts = counted(counts, is_right(alloc, 3, &turns)?);
    }
    Ok(counts)
}

/// Tries the schedules, prints how many differ, and returns whether none differs.
pub(crate) fn try_schedules(rt: &HostRuntime) -> io::Result<bool> {
    let alloc = rt.alloc();
    let Ok(two) = try_two(alloc) else {
        return Err(io::Error::from(ErrorKind::OutOfMemory));
    };
    let Ok(three) = try_three(alloc) else {
        return Err(io::Error::from(ErrorKind::OutOfMemory));
    };
    println!(rt; "two posts: {} schedules, {} differ", two.tried, two.differ)?;
    println!(rt;
        "three posts: {} schedules, {} differ",
        three.tried, three.differ
    )?;
    Ok(two.tried == 252 && two.differ == 0 && three.differ == 0)
}
