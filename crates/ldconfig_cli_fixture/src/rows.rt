//! The devices of a row, and how a command ends on them.
use crate::words::run_line;
use command_runs_fixture::{Devices, Setting, make_devices};
use elf_samples::SampleFault;
use image_rows::{aux_of, held_of};
use lib_types::NoMemory;
use std::alloc::Global;
use table_rows::{Differences, Row, optional_text, text};
use tree_face::{MemSink, MemSource};

/// Devices with the files of a row's store, its manifest, its auxiliary cache, and its script as the input, if it has these. The setting
/// has the cache, and the calls that fail.
pub fn devices_of(
    alloc: Global,
    row: Row<'_>,
    setting: Setting<'_>,
) -> Result<Devices, SampleFault> {
    let manifest = optional_text(alloc, row, b"manifest")?;
    let aux = aux_of(alloc, row)?;
    let held = held_of(alloc, row)?;
    let setting = Setting {
        manifest: manifest.as_deref(),
        aux: aux.as_deref(),
        ..setting
    };
    let mut devices = make_devices(alloc, setting, held)?;
    devices.input = MemSource::new(text(alloc, row, b"script")?, Vec::new(alloc));
    Ok(devices)
}

/// The exit status of a command, and its output.
#[derive(Clone, Copy)]
pub struct Ending<'a> {
    pub status: u64,
    pub output: &'a [u8],
}

/// Runs a command with the arguments of a line, separated by blanks, and a new sink. Returns whether it has this end, and says what
/// differs.
pub fn ends_so(
    alloc: Global,
    command: &str,
    line: &[u8],
    want: Ending<'_>,
    devices: &mut Devices,
    differences: &mut Differences,
) -> Result<bool, NoMemory> {
    devices.out = MemSink::new(alloc, Vec::new(alloc));
    let got = run_line(alloc, command, line, devices)?;
    let is_so = differences.is_same(b"output", want.output, devices.out.written())?
        && differences.is_number(alloc, b"status", want.status, u64::from(got.code()))?;
    if !is_so {
        differences.say(b"of the command ", command.as_bytes())?;
        differences.say(b"with ", line)?;
    }
    Ok(is_so)
}
