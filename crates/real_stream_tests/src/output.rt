//! The standard output.
use device_rules::is_missing;
use standard_streams::shown;
use std::alloc::Global;
use std::{fs, io};
use tree_face::{MemSink, Sink, put_all};
use tree_real::StdoutSink;
use trial_devices::{Manner, OUTPUT, Random, Report, Trial};

const ROUNDS: u64 = 16;

const TEXTS: u64 = 20;

/// Writes the same texts to the standard output and to a sink in memory, in each manner of moving bytes.
pub fn try_output(rt: &HostRuntime, trial: &Trial, report: &mut Report<'_>) -> io::Result<()> {
    report.begin("texts on the standard output");
    trial.plan().set_terminal(false);
    for round in 0..ROUNDS {
        report.go_to(round);
        trial.plan().move_in(Manner::of(round));
        try_round(rt, trial, round, report)?;
    }
    report.end(ROUNDS)
}

/// The same on a terminal, where what could steer it is escaped.
pub fn try_terminal(rt: &HostRuntime, trial: &Trial, report: &mut Report<'_>) -> io::Result<()> {
    report.begin("texts on a terminal");
    trial.plan().set_terminal(true);
    for round in 0..ROUNDS {
        report.go_to(round);
        trial.plan().move_in(Manner::of(round));
        try_round(rt, trial, round, report)?;
    }
    trial.plan().set_terminal(false);
    report.end(ROUNDS)
}

// Removes the output of the trial before.
fn make_empty(rt: &HostRuntime) -> io::Result<()> {
    match fs::remove_file(rt, OUTPUT) {
        Ok(()) => Ok(()),
        Err(error) if is_missing(error.kind()) => Ok(()),
        Err(error) => Err(error),
    }
}

// What was written to the standard output.
fn written(rt: &HostRuntime) -> io::Result<Vec<u8>> {
    match fs::read(rt, OUTPUT) {
        Ok(bytes) => Ok(bytes),
        Err(error) if is_missing(error.kind()) => Ok(Vec::new(rt.alloc())),
        Err(error) => Err(error),
    }
}

// What a sink in memory holds, as the standard output shows it.
fn as_shown(alloc: Global, trial: &Trial, bytes: &[u8]) -> io::Result<Vec<u8>> {
    if trial.plan().is_terminal() {
        Ok(shown(alloc, true, bytes)?)
    } else {
        Ok(Vec::from_slice(alloc, bytes)?)
    }
}

fn try_round(
    rt: &HostRuntime,
    trial: &Trial,
    seed: u64,
    report: &mut Report<'_>,
) -> io::Result<()> {
    let alloc = rt.alloc();
    let mut random = Random::new(seed);
    make_empty(rt)?;
    let mut real = StdoutSink::new(trial.clone()?);
    let mut model = MemSink::new(alloc, Vec::new(alloc));
    for _text in 0..TEXTS {
        let text = text_of(alloc, &mut random)?;
        write(&mut real, &mut model, &text, report);
    }
    let expected = as_shown(alloc, trial, model.written())?;
    report.expect(
        written(rt)?.as_slice() == expected.as_slice(),
        "other bytes",
    );
    report.expect(trial.plan().take_lines() == 0, "a line without an error");
    Ok(())
}

// Pieces of texts: ASCII, a line feed and a tab, controls, and characters of several bytes, some of which can't be seen.
const PIECES: &[&[u8]] = &[
    b"ldconfig",
    b" ",
    b"\n",
    b"\t",
    b"\x1b[31m",
    b"\x07",
    b"\x7f",
    b"\\",
    b"\xc3\xa9",
    b"\xe2\x80\xae",
    b"\xe2\x82\xac",
    b"\xf0\x9f\x98\x80",
    b"\xff",
    b"\xe2",
];

fn text_of(alloc: Global, random: &mut Random) -> io::Result<Vec<u8>> {
    let mut text = Vec::new(alloc);
    for _piece in 0..random.below(12) {
        text.extend_from_slice(PIECES[random.below(PIECES.len())])?;
    }
    Ok(text)
}

// Writes the whole text to both sinks.
fn write<A: Sink, B: Sink>(real: &mut A, model: &mut B, text: &[u8], report: &mut Report<'_>) {
    let put = put_all(real, text);
    report.expect(put == put_all(model, text), "put_all: another result");
}

const TEXT: &[u8] = b"a text of some length\n";

/// Writes a text byte by byte, with each call failing in turn.
pub fn try_faults(rt: &HostRuntime, trial: &Trial, report: &mut Report<'_>) -> io::Result<()> {
    report.begin("failing calls on the standard output");
    trial.plan().move_in(Manner::of(3));
    for calls in 0..TEXT.len() {
        report.go_to(calls as u64);
        try_fault(rt, trial, calls, report)?;
    }
    report.end(TEXT.len() as u64)
}

// The call with this number fails. The bytes before it are written, and the sink goes on after it.
fn try_fault(
    rt: &HostRuntime,
    trial: &Trial,
    calls: usize,
    report: &mut Report<'_>,
) -> io::Result<()> {
    make_empty(rt)?;
    let mut real = StdoutSink::new(trial.clone()?);
    trial.plan().fail_after(calls as u64);
    let put = put_all(&mut real, TEXT);
    report.expect(trial.plan().end_failing().is_some(), "makes too few calls");
    report.expect(put.is_err(), "hides an error");
    report.expect(trial.plan().take_lines() == 1, "not one line for its error");
    let before = &TEXT[..calls.min(TEXT.len())];
    report.expect(
        written(rt)?.as_slice() == before,
        "other bytes before an error",
    );
    report.expect(put_all(&mut real, TEXT).is_ok(), "fails after an error");
    report.expect(written(rt)?.ends_with(TEXT), "other bytes after an error");
    Ok(())
}
