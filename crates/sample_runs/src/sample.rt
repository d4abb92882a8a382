//! The command `sample`.
ghost use Rattle.std.specs.Prelude.{◌≡◌, IfErr, IfOk, OnErr};
ghost use Rattle.sample_runs.specs.Files.{sample_files};
ghost use Rattle.sample_runs.specs.Sample.{IsSample, SampleEnds};
ghost use Rattle.sample_runs.specs.Text.{text_with};
ghost use Rattle.sample_runs.specs.Updates.{SampleFails, UpdatesTwice, UsesSample};

use crate::fault::SampleFault;
use crate::files::{SampleFile, sample_files};
use crate::images::{first_image, replace_all};
use crate::lookups::found_in;
use crate::readings::readings;
use crate::text::{put_lookups_line, put_readings_line, put_update_line};
use crate::updates::{SampleUpdate, update};
use command_status::Status;
use lib_types::NoMemory;
use std::alloc::Global;
use tree_face::{Disk, Sink, Store, put_all};

// Both updates.
#[tactic(auto, using(crate::proofs::Twice::first_fails_by, crate::proofs::Twice::second_fails_by, crate::proofs::Twice::first_stops_by, crate::proofs::Twice::nothing_read))]
fn update_twice<S: Store, D: Disk>(
    alloc: Global,
    n: u16,
    files: &[SampleFile],
    store: &mut S,
    disk: &mut D,
) -> Result<(SampleUpdate, SampleUpdate), SampleFault>
    requires { files.now ≡ sample_files n }
    ensures updates { IfOk result (λ numbers. UpdatesTwice n numbers (S.state store.old) (S.state store.new) (D.state disk.old) (D.state disk.new)) }
    ensures failed { IfErr result (λ fault. SampleFails n fault (S.state store.old) (S.state store.new) (D.state disk.old) (D.state disk.new)) }
    ensures part { OnErr result (UsesSample n (S.state store.old) (S.state store.new) (D.state disk.old) (D.state disk.new)) }
{
    let Ok(image) = first_image(alloc, n, files) else {
        return Err(SampleFault::NoMemory);
    };
    let (updated, first) = match update(alloc, image, store, disk) {
        Ok(updated) => updated,
        Err(fault) => return Err(fault),
    };
    let Ok(image) = replace_all(alloc, updated, n, files) else {
        return Err(SampleFault::NoMemory);
    };
    match update(alloc, image, store, disk) {
        Ok((_, second)) => Ok((first, second)),
        Err(fault) => Err(fault),
    }
}

// The text of these updates.
fn text_of(
    alloc: Global,
    n: u16,
    files: &[SampleFile],
    first: &SampleUpdate,
    second: &SampleUpdate,
) -> Result<Vec<u8>, NoMemory>
    requires { files.now ≡ sample_files n }
    ensures { IfOk result (λ text. text.items ≡ text_with n first.now second.now) }
{
    let mut text = Vec::new(alloc);
    put_update_line(alloc, &mut text, 1, first)?;
    put_update_line(alloc, &mut text, 2, second)?;
    let found = found_in(alloc, second.cache.as_bytes(), files)?;
    put_lookups_line(alloc, &mut text, found, n)?;
    let read = readings(alloc, first.cache.as_bytes(), second.cache.as_bytes())?;
    put_readings_line(alloc, &mut text, &read)?;
    Ok(text)
}

// The updates, and the text.
fn sample<S: Store, D: Disk>(
    alloc: Global,
    n: u16,
    store: &mut S,
    disk: &mut D,
) -> Result<Vec<u8>, SampleFault>
    ensures text { IfOk result (λ text. IsSample n text.items (S.state store.old) (S.state store.new) (D.state disk.old) (D.state disk.new)) }
    ensures failed { IfErr result (λ fault. SampleFails n fault (S.state store.old) (S.state store.new) (D.state disk.old) (D.state disk.new)) }
    ensures part { OnErr result (UsesSample n (S.state store.old) (S.state store.new) (D.state disk.old) (D.state disk.new)) }
{
    let Ok(files) = sample_files(alloc, n) else {
        return Err(SampleFault::NoMemory);
    };
    let (first, second) = match update_twice(alloc, n, &files, store, disk) {
        Ok(updates) => updates,
        Err(fault) => return Err(fault),
    };
    match text_of(alloc, n, &files, &first, &second) {
        Ok(text) => Ok(text),
        Err(NoMemory) => Err(SampleFault::NoMemory),
    }
}

/// Updates the two images of a sample of `n` libraries on these devices, and writes the sample's text. It writes no fault line.
pub fn sample_on<S: Store, D: Disk, O: Sink>(
    alloc: Global,
    n: u16,
    store: &mut S,
    disk: &mut D,
    out: &mut O,
) -> Status
    ensures { SampleEnds n result (S.state store.old) (S.state store.new) (D.state disk.old) (D.state disk.new) (O.state out.old) (O.state out.new) }
{
    let text = match sample(alloc, n, store, disk) {
        Ok(text) => text,
        Err(fault) => return Status::from(fault),
    };
    if put_all(out, &text).is_err() {
        return Status::OutputFault;
    }
    Status::Done
}
