//! The two errors whose cause is outside the program: a failed I/O call, and no memory.
use std::alloc::{AllocError, AllocFailed};

/// A call of an I/O interface failed. Each I/O interface counts its failed calls.
#[derive(Clone, Copy, Debug, PartialEq, Eq)]
pub struct Failed;

/// Out of memory.
#[derive(Clone, Copy, Debug, PartialEq, Eq)]
pub struct NoMemory;

impl From<AllocError> for NoMemory {
    fn from(_: AllocError) -> Self {
        NoMemory
    }
}

impl<T: Drop> From<AllocFailed<T>> for NoMemory {
    fn from(_: AllocFailed<T>) -> Self {
        NoMemory
    }
}
