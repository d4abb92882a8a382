//! The command `sample` with its own devices in memory.
ghost use Rattle.std.specs.Prelude.{◌≡◌, map, IfOk};
ghost use Rattle.sample_runs.specs.Files.{sample_files};
ghost use Rattle.sample_runs.specs.Run.{RunEnds, own_status, pair_of};

use crate::files::{SampleFile, content, key, sample_files};
use crate::sample::sample_on;
use command_status::Status;
use lib_types::{NoMemory, Text};
use mtree_manifest::EMPTY_MANIFEST;
use std::alloc::Global;
use tree_face::{Sink, SureDisk, SureStore};

// The key and the content of a library.
fn pair_of(alloc: Global, file: SampleFile) -> Result<(Text, Text), NoMemory>
    ensures { IfOk result (λ pair. pair ≡ pair_of file) }
{
    let bytes = Text::from_vec(content(alloc, file)?);
    Ok((key(alloc, file)?, bytes))
}

fn pairs_of(alloc: Global, files: &[SampleFile]) -> Result<Vec<(Text, Text)>, NoMemory>
    ensures { IfOk result (λ pairs. pairs.items ≡ map pair_of files.now) }
{
    let mut pairs = Vec::new(alloc);
    for file in files {
        pairs.push(pair_of(alloc, *file)?)?;
    }
    Ok(pairs)
}

// The contents of the libraries, by their keys.
fn contents(alloc: Global, n: u16) -> Result<Vec<(Text, Text)>, NoMemory>
    ensures { IfOk result (λ pairs. pairs.items ≡ map pair_of (sample_files n)) }
{
    let files = sample_files(alloc, n)?;
    pairs_of(alloc, &files)
}

// A failure of the store or of the disk in memory means out of memory.
fn own_status(status: Status) -> Status
    ensures { result ≡ own_status status }
{
    match status {
        Status::StoreFault | Status::DiskFault => Status::NoMemory,
        status => status,
    }
}

/// Runs the command `sample` with its own devices in memory. It writes no fault line.
#[tactic(auto, using(crate::proofs::Ran::not_usage))]
pub fn run_sample<O: Sink>(alloc: Global, n: u16, out: &mut O) -> Status
    ensures ends { RunEnds n result (O.state out.old) (O.state out.new) }
    ensures no_usage { result ≡ Status.Usage → ⊥ }
{
    let Ok(pairs) = contents(alloc, n) else {
        return Status::NoMemory;
    };
    let Ok(manifest) = Vec::from_slice(alloc, EMPTY_MANIFEST) else {
        return Status::NoMemory;
    };
    let mut store = SureStore::new(pairs);
    let mut disk = SureDisk::new(alloc, Some(manifest), None, None);
    own_status(sample_on(alloc, n, &mut store, &mut disk, out))
}
