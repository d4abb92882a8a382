//! The process that has the lock on a file, from /proc/locks (proc_locks(5)).
use device_rules::Identity;
use std::rt::Runtime;
use std::{fs, io};

/// The number of the process that has the lock on this file, if the system shows it.
pub(crate) fn holder<R: Runtime>(rt: &R, file: Identity) -> io::Result<Option<String<R::A>>> {
    let place = place_of(rt, file)?;
    let list = fs::read_to_string(rt, "/proc/locks")?;
    for line in list.as_str().lines() {
        if let Some(process) = holder_in(line, place.as_str()) {
            return Ok(Some(String::from_str(rt.alloc(), process)?));
        }
    }
    Ok(None)
}

// The file as /proc/locks names it: the device's two numbers, in hexadecimal, and the inode.
fn place_of<R: Runtime>(rt: &R, file: Identity) -> io::Result<String<R::A>> {
    let (major, minor) = (major_of(file.device), minor_of(file.device));
    let inode = file.inode;
    Ok(format!(in rt.alloc(); "{major:02x}:{minor:02x}:{inode}")?)
}

// The process in a line of /proc/locks, if the line is of a held lock on this file. If a process waits for a lock, the line has an arrow
// in place of the lock's class.
fn holder_in<'a>(line: &'a str, place: &str) -> Option<&'a str> {
    let mut words = line.split_whitespace();
    let _number = words.next()?;
    if words.next()? != "FLOCK" {
        return None;
    }
    let process = words.nth(2)?;
    if words.next()? == place {
        Some(process)
    } else {
        None
    }
}

// See makedev(3).
fn major_of(device: u64) -> u64 {
    ((device >> 8) & 0xfff) | ((device >> 32) & 0xffff_f000)
}

fn minor_of(device: u64) -> u64 {
    (device & 0xff) | ((device >> 12) & 0xffff_ff00)
}
