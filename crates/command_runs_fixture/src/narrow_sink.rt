//! A sink that accepts few bytes per call.
ghost use Rattle.tree_face.specs.SureStream.{failing_sink_state};

use crate::setting::number;
use lib_types::{Failed, NoMemory};
use std::alloc::Global;
use tree_face::{MemSink, Sink};

/// A sink that accepts at most seven bytes per call.
#[derive(Drop)]
pub struct NarrowSink {
    sink: MemSink,
}

impl NarrowSink {
    /// A sink in which the call with this number fails, counted from 0.
    pub fn new(alloc: Global, call: u64) -> Result<NarrowSink, NoMemory> {
        Ok(NarrowSink {
            sink: MemSink::new(alloc, number(alloc, Some(call))?),
        })
    }

    /// The bytes that it accepted.
    pub fn written(&self) -> &[u8] {
        self.sink.written()
    }
}

impl Sink for NarrowSink {
    ghost state = { λ s. failing_sink_state s.sink };

    fn write(&mut self, bytes: &[u8]) -> Result<usize, Failed> {
        let count = bytes.len().min(7);
        self.sink.write(&bytes[..count])
    }
}
