//! The standard input.
use std::alloc::Global;
use std::{fs, io};
use tree_face::{MemSource, ReadFault, Source, read_all};
use tree_real::StdinSource;
use trial_devices::{INPUT, Manner, Random, Report, Trial};

// Lengths of inputs, among them those around the pieces in which an input is read.
const LENGTHS: [usize; 8] = [0, 1, 60, 4095, 4096, 4097, 9000, 20_000];

// The most bytes of an input.
const LIMITS: [usize; 3] = [60, 4096, 1 << 20];

// Scripts, and whether they end in edits.
const SCRIPTS: &[(&str, bool)] = &[
    ("", false),
    ("put a file b\n", true),
    ("put a file b\nupdate\n", false),
    ("update\n  drop a\n", true),
    ("update\n# put\n", false),
    ("put a dir\n\n", true),
    ("drop a\nupdate", false),
];

// Each length, with each limit.
const CASES: u64 = 24;

// Each row of scripts.
const ENDS: u64 = 7;

/// Reads the same inputs from the standard input and from a source in memory, in each manner of moving bytes.
pub fn try_input(rt: &HostRuntime, trial: &Trial, report: &mut Report<'_>) -> io::Result<()> {
    report.begin("inputs");
    let mut number = 0u64;
    for length in LENGTHS {
        for limit in LIMITS {
            report.go_to(number);
            trial.plan().move_in(Manner::of(number));
            number = number.saturating_add(1);
            try_length(rt, trial, length, limit, report)?;
        }
    }
    report.end(CASES)?;
    report.begin("failing calls on the standard input");
    trial.plan().move_in(Manner::of(3));
    for calls in 0..FAULTS {
        report.go_to(calls);
        try_fault(rt, trial, calls, report)?;
    }
    report.end(FAULTS)?;
    try_scripts(rt, trial, report)
}

fn try_length(
    rt: &HostRuntime,
    trial: &Trial,
    length: usize,
    limit: usize,
    report: &mut Report<'_>,
) -> io::Result<()> {
    let alloc = rt.alloc();
    let bytes = Random::new(length as u64).bytes(alloc, length)?;
    fs::write(rt, INPUT, bytes.as_slice())?;
    let mut real = StdinSource::new(trial.clone()?);
    let mut model = MemSource::new(bytes, Vec::new(alloc));
    let found = read_all(alloc, &mut real, limit);
    let expected = read_all(alloc, &mut model, limit);
    report.expect(is_same(&found, &expected), "read_all: another result");
    compare_rest(alloc, &mut real, &mut model, report);
    report.expect(trial.plan().take_lines() == 0, "a line without an error");
    Ok(())
}

// What is left of both inputs is the same.
fn compare_rest<A: Source, B: Source>(
    alloc: Global,
    real: &mut A,
    model: &mut B,
    report: &mut Report<'_>,
) {
    let found = read_all(alloc, real, 1 << 20);
    let expected = read_all(alloc, model, 1 << 20);
    report.expect(is_same(&found, &expected), "read_all: another rest");
}

fn is_same(a: &Result<Vec<u8>, ReadFault>, b: &Result<Vec<u8>, ReadFault>) -> bool {
    match (a, b) {
        (Ok(a), Ok(b)) => a.as_slice() == b.as_slice(),
        (Err(a), Err(b)) => a == b,
        _ => false,
    }
}

const FAULTS: u64 = 30;

// The call with this number fails, while an input is read byte by byte.
fn try_fault(
    rt: &HostRuntime,
    trial: &Trial,
    calls: u64,
    report: &mut Report<'_>,
) -> io::Result<()> {
    let alloc = rt.alloc();
    let bytes = Random::new(calls).bytes(alloc, FAULTS as usize)?;
    fs::write(rt, INPUT, bytes.as_slice())?;
    let mut real = StdinSource::new(trial.clone()?);
    trial.plan().fail_after(calls);
    let found = read_all(alloc, &mut real, 100);
    report.expect(trial.plan().end_failing().is_some(), "makes too few calls");
    report.expect(is_input_fault(&found), "hides an error");
    report.expect(trial.plan().take_lines() == 1, "not one line for its error");
    let rest = read_all(alloc, &mut real, 100);
    report.expect(
        is_rest(&rest, &bytes, calls as usize),
        "another rest after an error",
    );
    Ok(())
}

fn is_input_fault(found: &Result<Vec<u8>, ReadFault>) -> bool {
    match found {
        Ok(_) => false,
        Err(fault) => *fault == ReadFault::InputFault,
    }
}

// Whether these are the bytes from this offset on.
fn is_rest(found: &Result<Vec<u8>, ReadFault>, bytes: &[u8], first: usize) -> bool {
    match found {
        Ok(found) => found.as_slice() == &bytes[first.min(bytes.len())..],
        Err(_) => false,
    }
}

// The source knows whether a script ends in edits.
fn try_scripts(rt: &HostRuntime, trial: &Trial, report: &mut Report<'_>) -> io::Result<()> {
    report.begin("ends of scripts");
    for (script, is_edit) in SCRIPTS {
        fs::write(rt, INPUT, *script)?;
        let mut real = StdinSource::new(trial.clone()?);
        let found = read_all(rt.alloc(), &mut real, 100);
        report.expect(found.is_ok(), "read_all: fails");
        report.expect(real.ends_in_edits() == *is_edit, "another end of a script");
    }
    report.end(ENDS)
}
