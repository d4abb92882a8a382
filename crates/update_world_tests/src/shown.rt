//! Readings as text.
use lib_types::NoMemory;
use std::alloc::Global;
use update_world::{Readings, Turn, World, world_run};

/// A line with the number of updaters that have renamed their file into place, the last one's tag, and the file's content; `-` if there is
/// none.
pub(crate) fn push_line(
    alloc: Global,
    out: &mut Vec<u8>,
    published: u64,
    tag: Option<u16>,
    bytes: Option<&[u8]>,
) -> Result<(), NoMemory> {
    let published = format!(in alloc; "{published} ")?;
    out.extend_from_slice(published.as_bytes())?;
    match tag {
        Some(tag) => out.extend_from_slice(format!(in alloc; "{tag}")?.as_bytes())?,
        None => out.push(b'-')?,
    }
    out.push(b' ')?;
    match bytes {
        Some(bytes) => out.extend_from_slice(bytes)?,
        None => out.push(b'-')?,
    }
    out.push(b'\n')?;
    Ok(())
}

// A line for each reading.
fn push_readings(alloc: Global, out: &mut Vec<u8>, readings: &Readings) -> Result<(), NoMemory> {
    for reading in readings.as_slice() {
        let tag = match reading.writer {
            Some(tag) => Some(tag.0),
            None => None,
        };
        let bytes = match &reading.bytes {
            Some(text) => Some(text.as_bytes()),
            None => None,
        };
        push_line(alloc, out, u64::from(reading.published), tag, bytes)?;
    }
    Ok(())
}

/// What was read, and after each round of turns what a crash may leave.
#[derive(Drop)]
pub(crate) struct Seen {
    pub(crate) read: Vec<u8>,
    pub(crate) left: Vec<u8>,
}

pub(crate) const ROUND: &[u8] = b"round\n";

impl Seen {
    pub(crate) fn new(alloc: Global) -> Seen {
        Seen {
            read: Vec::new(alloc),
            left: Vec::new(alloc),
        }
    }

    /// Does a round of turns.
    pub(crate) fn take(
        &mut self,
        alloc: Global,
        world: &mut World,
        turns: &[Turn],
    ) -> Result<(), NoMemory> {
        let read = world_run(alloc, world, turns)?;
        push_readings(alloc, &mut self.read, &read)?;
        self.look(alloc, world)
    }

    // What a crash now may leave.
    fn look(&mut self, alloc: Global, world: &World) -> Result<(), NoMemory> {
        self.left.extend_from_slice(ROUND)?;
        push_readings(alloc, &mut self.left, &world.left(alloc)?)
    }
}
