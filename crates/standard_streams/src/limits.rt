//! The longest file that this program may write (`RLIMIT_FSIZE`). A program that writes past it gets SIGXFSZ, so the limit is read before.
use std::fs;
use std::io::{self, Read};
use std::rt::Runtime;
use std::str::from_utf8;

// The line on file sizes is within this number of first bytes of /proc/self/limits.
const LISTED: usize = 1024;

/// The most bytes of a file, if the system has a limit and shows it.
pub fn file_limit<R: Runtime>(rt: &R) -> Option<u64> {
    let mut list = [0u8; LISTED];
    let count = read_start(rt, &mut list).ok()?;
    limit_in(from_utf8(list.get(..count)?).ok()?)
}

// Reads the beginning of /proc/self/limits.
fn read_start<R: Runtime>(rt: &R, list: &mut [u8]) -> io::Result<usize> {
    fs::open(rt, "/proc/self/limits")?.read(list)
}

// The limit in force is the first word after the line's name: `unlimited` or a number. See proc(5).
fn limit_in(list: &str) -> Option<u64> {
    let (_, line) = list.split_once("Max file size ")?;
    let (limit, _) = line.trim_start().split_once(' ')?;
    limit.parse().ok()
}
