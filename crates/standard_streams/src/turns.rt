//! Calls on the standard streams that are repeated if they couldn't be done yet.
ghost use Rattle.std.specs.Prelude.{◌≤◌, ◌≢◌, IfErr, IfOk, length};
ghost use Rattle.std.specs.IoError.{error_kind};
ghost use Rattle.std.specs.declared.io.ErrorKind.TheVariants as kinds;

use crate::streams::Streams;
use device_rules::is_for_now;
use std::io::{self, Error, ErrorKind, Read};
use std::rt::Runtime;
use std::thread;
use std::time::Duration;

// The most repetitions of a call on a non-blocking stream. With the pauses between them this is about an hour.
const MOST_TURNS: u64 = 360_000;

const PAUSE_MILLIS: u64 = 10;

/// The pause of 10 ms before a call is repeated.
pub fn pause<R: Runtime>(rt: &R) {
    thread::sleep(rt, Duration::from_millis(PAUSE_MILLIS))
}

/// Reads once. It tries again if a signal came or if nothing is there yet.
pub fn read_some<R: Runtime>(rt: &R, reader: &mut R::Reader, buf: &mut [u8]) -> io::Result<usize>
    ensures within { IfOk result (λ n. n ≤ length buf.new) }
    ensures not_for_a_signal { IfErr result (λ error. error_kind error ≢ kinds.Interrupted) }
    ensures not_for_now { IfErr result (λ error. error_kind error ≢ kinds.WouldBlock) }
{
    for _ in 0..MOST_TURNS {
        match reader.read(buf) {
            Err(error) if is_for_now(error.kind()) => pause(rt),
            done => return done,
        }
    }
    Err(Error::from(ErrorKind::TimedOut))
}

/// Writes once. It tries again if a signal came or if the reader isn't ready.
pub fn write_some<R: Runtime + Streams>(rt: &R, bytes: &[u8]) -> io::Result<usize>
    ensures within { IfOk result (λ n. n ≤ length bytes.now) }
    ensures not_for_a_signal { IfErr result (λ error. error_kind error ≢ kinds.Interrupted) }
    ensures not_for_now { IfErr result (λ error. error_kind error ≢ kinds.WouldBlock) }
{
    for _ in 0..MOST_TURNS {
        match rt.write_output(bytes) {
            Err(error) if is_for_now(error.kind()) => pause(rt),
            done => return done,
        }
    }
    Err(Error::from(ErrorKind::TimedOut))
}
