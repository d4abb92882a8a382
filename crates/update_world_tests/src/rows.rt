//! One row: updaters, rounds of turns, what is read, and what a crash may leave after each round.
use crate::shown::Seen;
use lib_types::{NoMemory, Text};
use std::alloc::Global;
use table_rows::{Differences, Row, Trial, Words, divide, number, owned_value, value};
use tree_face::Tag;
use update_world::{Post, Posts, Turn, World, WorldFault};

/// A row has the first content, if there is one, and a line for each updater with its tag and bytes. In the rounds of turns, a digit is a
/// step of the updater with this index, and any other character is a load.
pub(crate) struct Rounds;

fn posts_of(alloc: Global, row: Row<'_>) -> Result<Posts, NoMemory> {
    let mut posts = Posts::new(alloc);
    for line in row {
        let (word, rest) = divide(b' ', line);
        if word == b"post".as_slice() {
            let (tag, bytes) = divide(b' ', rest);
            posts.push(Post {
                tag: Tag(u16::try_from(number(tag)).unwrap_or(0)),
                bytes: Text::copy_of(alloc, bytes)?,
            })?;
        }
    }
    Ok(posts)
}

fn turns_of(alloc: Global, round: &[u8]) -> Result<Vec<Turn>, NoMemory> {
    let mut turns = Vec::new(alloc);
    for byte in round {
        turns.push(if byte.is_ascii_digit() {
            Turn::Step(u32::from(byte.saturating_sub(b'0')))
        } else {
            Turn::Load
        })?;
    }
    Ok(turns)
}

fn take_rounds(alloc: Global, world: &mut World, rounds: &[u8]) -> Result<Seen, NoMemory> {
    let mut seen = Seen::new(alloc);
    let mut rest = rounds;
    for _ in 0..rounds.len() {
        if rest.is_empty() {
            break;
        }
        let (round, following) = divide(b' ', rest);
        seen.take(alloc, world, &turns_of(alloc, round)?)?;
        rest = following;
    }
    Ok(seen)
}

fn are_right(
    alloc: Global,
    row: Row<'_>,
    world: &mut World,
    differences: &mut Differences,
) -> Result<bool, NoMemory> {
    let got = take_rounds(alloc, world, value(row, b"rounds").unwrap_or(b""))?;
    let read = differences.is_text(alloc, row, b"readings", &got.read)?;
    Ok(differences.is_text(alloc, row, b"after-crash", &got.left)? && read)
}

fn is_tag(
    alloc: Global,
    tag: Tag,
    want: &[u8],
    differences: &mut Differences,
) -> Result<bool, NoMemory> {
    let got = format!(in alloc; "{}", tag.0)?;
    differences.is_same(b"same-tag", want, got.as_bytes())
}

const WORDS: &[Words] = &[&[
    b"first",
    b"post",
    b"rounds",
    b"readings",
    b"after-crash",
    b"same-tag",
]];

impl Trial for Rounds {
    fn words() -> &'static [Words] {
        WORDS
    }

    // A body that always returns NoMemory meets the contract, but not the rows.
    fn is_right(
        alloc: Global,
        row: Row<'_>,
        differences: &mut Differences,
    ) -> Result<bool, NoMemory> {
        let want = value(row, b"same-tag").unwrap_or(b"");
        match World::new(
            alloc,
            owned_value(alloc, row, b"first")?,
            posts_of(alloc, row)?,
        ) {
            Ok(mut world) => Ok(are_right(alloc, row, &mut world, differences)? && want.is_empty()),
            Err(WorldFault::SameTag { tag }) => is_tag(alloc, tag, want, differences),
            Err(WorldFault::NoMemory) => Err(NoMemory),
        }
    }
}
