//! Random sequences of calls on both stores.
ghost use Rattle.std.specs.Prelude.{IsSome};

use crate::image::{HELD, LACKING, ROOT, held};
use std::alloc::Global;
use std::io;
use tree_face::{MemStore, Store};
use tree_real::FolderStore;
use trial_devices::{Manner, Random, Report, Trial};

const ROUNDS: u64 = 60;

const TURNS: u64 = 30;

/// Makes the same calls on the store over the directory and on a store in memory, in each manner of moving bytes.
pub fn try_turns(rt: &HostRuntime, trial: &Trial, report: &mut Report<'_>) -> io::Result<()> {
    report.begin("sequences of calls");
    for round in 0..ROUNDS {
        report.go_to(round);
        trial.plan().move_in(Manner::of(round));
        try_round(rt.alloc(), trial, round, report)?;
    }
    report.end(ROUNDS)
}

fn try_round(alloc: Global, trial: &Trial, seed: u64, report: &mut Report<'_>) -> io::Result<()> {
    let mut real = FolderStore::new(trial.clone()?, ROOT).map_err(|_| no_memory())?;
    let mut model = MemStore::new(alloc, held(alloc)?, Vec::new(alloc));
    let mut random = Random::new(seed);
    for _turn in 0..TURNS {
        let opened = turn(alloc, &mut real, &mut model, &mut random, report)?;
        report.expect(
            real.begun() == model.begun(),
            "another number of opened files",
        );
        let lines = u64::from(!opened);
        report.expect(
            trial.plan().take_lines() == lines,
            "not one line for each error",
        );
    }
    Ok(())
}

/// The error of a call that is out of memory.
pub fn no_memory() -> io::Error {
    io::Error::from(io::ErrorKind::OutOfMemory)
}

// A key: of a file, or of none.
fn key_of(random: &mut Random) -> &'static [u8] {
    if random.once_in(3) {
        LACKING[random.below(LACKING.len())]
    } else {
        HELD[random.below(HELD.len())].0.as_bytes()
    }
}

// Opens a file in both stores and reads it three times. Returns whether it was opened.
fn turn<A: Store, B: Store>(
    alloc: Global,
    real: &mut A,
    model: &mut B,
    random: &mut Random,
    report: &mut Report<'_>,
) -> io::Result<bool> {
    let key = key_of(random);
    let opened = real.begin(key);
    let expected = model.begin(key);
    report.expect(opened == expected, "begin: another result");
    if opened.is_ok() && expected.is_ok() {
        read(alloc, real, model, random, report)?;
        read(alloc, real, model, random, report)?;
        read(alloc, real, model, random, report)?;
    }
    Ok(opened.is_ok())
}

const LENGTHS: &[usize] = &[0, 1, 20, 63, 64, 65, 512, 4096, 5000];

fn offset_of(random: &mut Random) -> u64 {
    match random.below(6) {
        0 | 1 => 0,
        2 => 1,
        3 => 4096,
        4 => random.below(21_000) as u64,
        _ => u64::MAX - random.below(2) as u64,
    }
}

// Reads from the open file of both stores.
fn read<A: Store, B: Store>(
    alloc: Global,
    real: &mut A,
    model: &mut B,
    random: &mut Random,
    report: &mut Report<'_>,
) -> io::Result<()>
    requires real { IsSome (A.state real.old).size }
    requires model { IsSome (B.state model.old).size }
    ensures real { IsSome (A.state real.new).size }
    ensures model { IsSome (B.state model.new).size }
{
    let at = offset_of(random);
    let length = LENGTHS[random.below(LENGTHS.len())];
    let mut bytes = vec![in alloc; 0xAAu8; length]?;
    let mut wanted = vec![in alloc; 0xAAu8; length]?;
    let count = real.read_at(at, &mut bytes);
    let expected = model.read_at(at, &mut wanted);
    report.expect(count == expected, "read_at: another result");
    report.expect(
        bytes.as_slice() == wanted.as_slice(),
        "read_at: other bytes",
    );
    Ok(())
}
