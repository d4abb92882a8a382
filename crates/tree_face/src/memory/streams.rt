//! Sources and sinks in memory.
ghost use Rattle.std.specs.Prelude.{◌≡◌, ◌≤◌, [], Some, length};

use super::failures::Failures;
use super::stores::copy_from;
use crate::{Sink, Source};
use lib_types::Failed;
use std::alloc::Global;

/// A source of these bytes that never fails.
#[derive(Drop)]
pub struct SureSource {
    bytes: Vec<u8>,
    at: usize,
    ghost within: { at ≤ length bytes.items },
}

/// A source in memory whose calls fail on demand.
#[derive(Drop)]
pub struct MemSource {
    source: SureSource,
    failures: Failures,
}

/// A sink that keeps the bytes written to it. It fails only if it is out of memory.
#[derive(Drop)]
pub struct SureSink {
    bytes: Vec<u8>,
    faults: u64,
}

/// A sink in memory whose calls fail on demand.
#[derive(Drop)]
pub struct MemSink {
    sink: SureSink,
    failures: Failures,
}

impl SureSource {
    ghost use Rattle.tree_face.specs.SureStream.{source_state};

    /// A source of these bytes.
    pub fn new(bytes: Vec<u8>) -> SureSource
        ensures { (source_state result).left ≡ Some bytes.items }
    {
        SureSource { bytes, at: 0 }
    }
}

impl Source for SureSource {
    ghost use Rattle.tree_face.specs.SureStream.{source_state};

    ghost state = { source_state };

    #[tactic(auto, using(crate::proofs::Streams::gives_part))]
    fn read(&mut self, buf: &mut [u8]) -> Result<usize, Failed> {
        let count = copy_from(&self.bytes, self.at as u64, buf);
        self.at += count;
        Ok(count)
    }
}

impl MemSource {
    ghost use Rattle.tree_face.specs.SureStream.{failing_source_state};

    /// A source of these bytes. The calls whose numbers are in `fail` fail. Calls are numbered from 0.
    pub fn new(bytes: Vec<u8>, fail: Vec<u64>) -> MemSource
        ensures left { (failing_source_state result).left ≡ Some bytes.items }
        ensures faults { (failing_source_state result).faults ≡ 0 }
    {
        MemSource {
            source: SureSource::new(bytes),
            failures: Failures::new(fail),
        }
    }
}

impl Source for MemSource {
    ghost use Rattle.tree_face.specs.SureStream.{failing_source_state};

    ghost state = { failing_source_state };

    fn read(&mut self, buf: &mut [u8]) -> Result<usize, Failed> {
        if self.failures.is_due(false) {
            self.failures.add_fault();
            return Err(Failed);
        }
        self.source.read(buf)
    }
}

impl SureSink {
    ghost use Rattle.tree_face.specs.SureStream.{sink_state};

    /// An empty sink.
    pub fn new(alloc: Global) -> SureSink
        ensures written { (sink_state result).written ≡ Some [] }
        ensures faults { (sink_state result).faults ≡ 0 }
    {
        SureSink {
            bytes: Vec::new(alloc),
            faults: 0,
        }
    }

    /// The bytes that were written to the sink.
    pub fn written(&self) -> &[u8]
        ensures { Some result.now ≡ (sink_state self.now).written }
    {
        &self.bytes
    }
}

impl Sink for SureSink {
    ghost use Rattle.tree_face.specs.SureStream.{sink_state};

    ghost state = { sink_state };

    fn write(&mut self, bytes: &[u8]) -> Result<usize, Failed> {
        match self.bytes.extend_from_slice(bytes) {
            Ok(()) => Ok(bytes.len()),
            Err(_) => {
                self.faults = self.faults.saturating_add(1);
                Err(Failed)
            }
        }
    }
}

impl MemSink {
    ghost use Rattle.tree_face.specs.SureStream.{failing_sink_state};

    /// An empty sink. The calls whose numbers are in `fail` fail. Calls are numbered from 0.
    pub fn new(alloc: Global, fail: Vec<u64>) -> MemSink
        ensures written { (failing_sink_state result).written ≡ Some [] }
        ensures faults { (failing_sink_state result).faults ≡ 0 }
    {
        MemSink {
            sink: SureSink::new(alloc),
            failures: Failures::new(fail),
        }
    }

    /// The bytes that were written to the sink.
    pub fn written(&self) -> &[u8]
        ensures { Some result.now ≡ (failing_sink_state self.now).written }
    {
        self.sink.written()
    }
}

impl Sink for MemSink {
    ghost use Rattle.tree_face.specs.SureStream.{failing_sink_state};

    ghost state = { failing_sink_state };

    fn write(&mut self, bytes: &[u8]) -> Result<usize, Failed> {
        if self.failures.is_due(true) {
            self.failures.add_fault();
            return Err(Failed);
        }
        let taken = self.sink.write(bytes);
        if taken.is_err() {
            self.failures.add_fault();
        }
        taken
    }
}
