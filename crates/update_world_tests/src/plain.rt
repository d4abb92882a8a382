//! What is read, and what a crash may leave, computed independently by counting the turns.
use crate::shown::push_line;
use lib_types::NoMemory;
use std::alloc::Global;
use update_world::Turn;

/// The tag and the bytes of each updater in the schedules.
pub(crate) const POSTS: &[(u16, &[u8])] = &[(7, b"A"), (3, b"B"), (5, b"C")];

pub(crate) const FIRST: &[u8] = b"F";

// The updater of this turn, if it is the updater's turn number `nth`.
fn nth_turn_of(turns: &[Turn], at: usize, nth: usize) -> Option<u32> {
    let Some(Turn::Step(post)) = turns.get(at) else {
        return None;
    };
    let mut count = 0usize;
    for turn in turns.iter().take(at) {
        if *turn == Turn::Step(*post) {
            count = count.saturating_add(1);
        }
    }
    if count.saturating_add(1) == nth {
        Some(*post)
    } else {
        None
    }
}

// The updaters, of the first `posts`, that have renamed their file into place before this turn: each does so in its fourth turn.
fn publishers(
    alloc: Global,
    turns: &[Turn],
    end: usize,
    posts: usize,
) -> Result<Vec<usize>, NoMemory> {
    let mut published = Vec::new(alloc);
    for at in 0..end {
        if let Some(post) = nth_turn_of(turns, at, 4) {
            if (post as usize) < posts {
                published.push(post as usize)?;
            }
        }
    }
    Ok(published)
}

fn push_after(alloc: Global, out: &mut Vec<u8>, published: &[usize]) -> Result<(), NoMemory> {
    let count = published.len() as u64;
    match published.last() {
        Some(post) => match POSTS.get(*post) {
            Some((tag, bytes)) => push_line(alloc, out, count, Some(*tag), Some(bytes)),
            None => Ok(()),
        },
        None => push_line(alloc, out, count, None, Some(FIRST)),
    }
}

/// A line for each load.
pub(crate) fn push_read(
    alloc: Global,
    out: &mut Vec<u8>,
    turns: &[Turn],
    posts: usize,
) -> Result<(), NoMemory> {
    for (at, turn) in turns.iter().enumerate() {
        if *turn == Turn::Load {
            push_after(alloc, out, &publishers(alloc, turns, at, posts)?)?;
        }
    }
    Ok(())
}

// The last turn before `end` in which an updater flushes the directory, or 0. Each updater does so in its fifth turn.
fn settled_end(turns: &[Turn], end: usize, posts: usize) -> usize {
    let mut settled = 0;
    for at in 0..end {
        if let Some(post) = nth_turn_of(turns, at, 5) {
            if (post as usize) < posts {
                settled = at;
            }
        }
    }
    settled
}

/// A line for each content that a crash before this turn may leave.
pub(crate) fn push_left(
    alloc: Global,
    out: &mut Vec<u8>,
    turns: &[Turn],
    end: usize,
    posts: usize,
) -> Result<(), NoMemory> {
    let published = publishers(alloc, turns, end, posts)?;
    let settled = publishers(alloc, turns, settled_end(turns, end, posts), posts)?;
    for (at, _) in published.iter().enumerate() {
        if settled.len() <= at {
            push_after(alloc, out, &published[..at])?;
        }
    }
    push_after(alloc, out, &published)
}
