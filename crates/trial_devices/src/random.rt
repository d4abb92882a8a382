//! Pseudo-random numbers.
ghost use Rattle.std.specs.Prelude.{◌≡◌, ◌<◌, IfOk, length};

use std::alloc::Global;
use std::io;

/// Pseudo-random numbers from a seed (SplitMix64). The same seed gives the same numbers.
#[derive(Drop)]
pub struct Random {
    state: u64,
}

impl Random {
    /// The numbers of this seed.
    pub fn new(seed: u64) -> Random {
        Random { state: seed }
    }

    /// The next number.
    pub fn next(&mut self) -> u64 {
        self.state = self.state.wrapping_add(0x9E37_79B9_7F4A_7C15);
        let first = (self.state ^ (self.state >> 30)).wrapping_mul(0xBF58_476D_1CE4_E5B9);
        let second = (first ^ (first >> 27)).wrapping_mul(0x94D0_49BB_1331_11EB);
        second ^ (second >> 31)
    }

    /// A number below `end`.
    pub fn below(&mut self, end: usize) -> usize
        requires { 0 < end }
        ensures { result < end }
    {
        (self.next() % end as u64) as usize
    }

    /// Whether an event that happens once in `times` happens now.
    pub fn once_in(&mut self, times: u64) -> bool
        requires { 0 < times }
    {
        self.next() % times == 0
    }

    /// This number of bytes.
    pub fn bytes(&mut self, alloc: Global, count: usize) -> io::Result<Vec<u8>> {
        let mut bytes = Vec::new(alloc);
        for _i in 0..count {
            bytes.push(self.next().to_le_bytes()[0])?;
        }
        Ok(bytes)
    }
}
