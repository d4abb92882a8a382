//! A store of one very long file, which is zero except for its first bytes.
use lib_types::Failed;
use tree_face::Store;

/// A store whose every key has these bytes followed by zeros, 2^40 bytes in all. Its content isn't known.
#[derive(Drop)]
pub struct Sparse {
    front: Vec<u8>,
    size: Option<u64>,
    faults: u64,
    begun: u64,
    taken: u64,
    readings: u64,
}

impl Sparse {
    /// A store from which nothing was read.
    pub fn new(front: Vec<u8>) -> Sparse {
        Sparse {
            front,
            size: None,
            faults: 0,
            begun: 0,
            taken: 0,
            readings: 0,
        }
    }

    /// The number of bytes that were read.
    pub fn taken(&self) -> u64 {
        self.taken
    }

    /// The number of readings.
    pub fn readings(&self) -> u64 {
        self.readings
    }
}

fn fill(buf: &mut [u8], front: &[u8], at: u64) {
    let mut next = at;
    for place in buf.iter_mut() {
        *place = front.get(next as usize).copied().unwrap_or(0);
        next = next.saturating_add(1);
    }
}

impl Store for Sparse {
    ghost use Rattle.std.specs.Prelude.{None};

    ghost state = { λ s. record { held = None; key = None; content = None; size = s.size; faults = s.faults; begun = s.begun; keys = None; taken = s.taken } };

    fn begin(&mut self, _key: &[u8]) -> Result<u64, Failed> {
        self.begun = self.begun.saturating_add(1);
        self.size = Some(1 << 40);
        Ok(1 << 40)
    }

    fn read_at(&mut self, at: u64, buf: &mut [u8]) -> Result<usize, Failed> {
        self.readings = self.readings.saturating_add(1);
        let Some(size) = self.size else {
            self.faults = self.faults.saturating_add(1);
            return Err(Failed);
        };
        let count = size.saturating_sub(at).min(buf.len() as u64) as usize;
        fill(&mut buf[..count], &self.front, at);
        self.taken = self.taken.saturating_add(count as u64);
        Ok(count)
    }
}
