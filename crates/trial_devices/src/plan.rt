//! What a trial does with the calls of a device.
ghost use Rattle.std.specs.Prelude.{◌≤◌, IfOk};

use std::cell::Cell;
use std::io::{self, Error, ErrorKind};

/// How bytes are moved.
#[derive(Clone, Copy, Debug, PartialEq, Eq)]
pub struct Manner {
    /// Each call moves at most one byte.
    pub is_short: bool,
    /// A signal interrupts every second call.
    pub is_interrupted: bool,
}

impl Manner {
    /// Each call moves as many bytes as it can.
    pub const WHOLE: Manner = Manner {
        is_short: false,
        is_interrupted: false,
    };

    /// The manner of this number: its two lowest bits.
    pub fn of(number: u64) -> Manner {
        Manner {
            is_short: number & 1 != 0,
            is_interrupted: number & 2 != 0,
        }
    }
}

/// A kind of system call.
#[derive(Clone, Copy, Debug, PartialEq, Eq)]
pub enum SystemCall {
    /// Opens a file or a directory.
    Open,
    /// Asks what is at a path or what is open.
    Look,
    /// Reads a file, a directory or a stream, or moves in it.
    Read,
    Write,
    Sync,
    Rename,
    Remove,
    /// Makes a directory or a link.
    Make,
    /// Changes a mode, a length or a time.
    Change,
    /// Gives a file to another user.
    Give,
    Lock,
}

/// The flushes of files and directories.
#[derive(Clone, Copy, Debug, PartialEq, Eq)]
pub struct Flushes {
    pub count: u64,
    /// The sum of the inodes of what was flushed.
    pub inodes: u64,
}

impl Flushes {
    /// No flush.
    pub const NONE: Flushes = Flushes {
        count: 0,
        inodes: 0,
    };

    /// These flushes, and one of the file with this inode.
    pub fn with(self, inode: u64) -> Flushes {
        Flushes {
            count: self.count.saturating_add(1),
            inodes: self.inodes.wrapping_add(inode),
        }
    }
}

/// What a trial does with the calls of a device, and what it has seen of them. All copies of a runtime share it.
#[derive(Drop)]
pub struct Plan {
    manner: Cell<Manner>,
    // Whether the next moving call is interrupted, if calls are.
    is_due: Cell<bool>,
    // The number of calls that pass before the one that fails. None if no call fails.
    left: Cell<Option<u64>>,
    // The number of the error of the call that fails, and whether all calls after it fail, too.
    code: Cell<i32>,
    is_lasting: Cell<bool>,
    failed: Cell<Option<SystemCall>>,
    // The number of lines on the error output.
    lines: Cell<u64>,
    flushes: Cell<Flushes>,
    // Whether the standard output counts as a terminal.
    is_terminal: Cell<bool>,
}

// EIO, which no device handles in a special way.
const IO_ERROR: i32 = 5;

// Room for one entry of a directory with a name of 255 bytes, as getdents64 writes it.
const ENTRY_ROOM: usize = 280;

impl Plan {
    /// A plan by which all calls succeed.
    pub fn new() -> Plan {
        Plan {
            manner: Cell::new(Manner::WHOLE),
            is_due: Cell::new(false),
            left: Cell::new(None),
            code: Cell::new(IO_ERROR),
            is_lasting: Cell::new(false),
            failed: Cell::new(None),
            lines: Cell::new(0),
            flushes: Cell::new(Flushes::NONE),
            is_terminal: Cell::new(false),
        }
    }

    /// From here on, bytes are moved in this manner.
    pub fn move_in(&self, manner: Manner) {
        self.manner.set(manner);
    }

    /// The call after this number of further calls fails, with EIO. The others succeed.
    pub fn fail_after(&self, calls: u64) {
        self.fail_with(calls, IO_ERROR);
    }

    /// The call after this number of further calls fails, with the error of this number (errno(3)). The others succeed.
    pub fn fail_with(&self, calls: u64, code: i32) {
        self.code.set(code);
        self.is_lasting.set(false);
        self.left.set(Some(calls));
        self.failed.set(None);
    }

    /// After this number of further calls, each call fails, with EIO.
    pub fn fail_from(&self, calls: u64) {
        self.fail_with(calls, IO_ERROR);
        self.is_lasting.set(true);
    }

    /// No further call fails. Returns the kind of the call that failed, if it was made.
    pub fn end_failing(&self) -> Option<SystemCall> {
        self.left.set(None);
        self.failed.get()
    }

    /// From here on, the standard output counts as a terminal or not.
    pub fn set_terminal(&self, is_terminal: bool) {
        self.is_terminal.set(is_terminal);
    }

    /// Whether the standard output counts as a terminal.
    pub fn is_terminal(&self) -> bool {
        self.is_terminal.get()
    }

    /// The number of lines that were written on the error output since this was asked last.
    pub fn take_lines(&self) -> u64 {
        let lines = self.lines.get();
        self.lines.set(0);
        lines
    }

    /// The flushes since this was asked last.
    pub fn take_flushes(&self) -> Flushes {
        let flushes = self.flushes.get();
        self.flushes.set(Flushes::NONE);
        flushes
    }

    /// Counts a flush of the file with this inode.
    pub fn add_flush(&self, inode: u64) {
        self.flushes.set(self.flushes.get().with(inode));
    }

    /// Counts a call. It is an error if this is the call that fails.
    pub fn pass(&self, call: SystemCall) -> io::Result<()> {
        match self.left.get() {
            None => Ok(()),
            Some(0) => {
                self.note_failed(call);
                Err(Error::from_raw_os_error(self.code.get()))
            }
            Some(left) => {
                self.left.set(Some(left - 1));
                Ok(())
            }
        }
    }

    // Counts a call that fails. The first one is kept.
    fn note_failed(&self, call: SystemCall) {
        if !self.is_lasting.get() {
            self.left.set(None);
        }
        if self.failed.get().is_none() {
            self.failed.set(Some(call));
        }
    }

    /// Counts a call that reads a directory into a buffer of `room` bytes, and returns how many of them it may use. A short call has room
    /// for one long name.
    pub fn pass_listing(&self, room: usize) -> io::Result<usize>
        ensures { IfOk result (λ n. n ≤ room) }
    {
        self.pass(SystemCall::Read)?;
        if self.manner.get().is_short {
            return Ok(room.min(ENTRY_ROOM));
        }
        Ok(room)
    }

    /// Counts a call that moves up to `room` bytes, and returns how many it may move.
    pub fn pass_moving(&self, call: SystemCall, room: usize) -> io::Result<usize>
        ensures { IfOk result (λ n. n ≤ room) }
    {
        let manner = self.manner.get();
        if manner.is_interrupted {
            let due = !self.is_due.get();
            self.is_due.set(due);
            if due {
                return Err(Error::from(ErrorKind::Interrupted));
            }
        }
        self.pass(call)?;
        Ok(if manner.is_short { room.min(1) } else { room })
    }

    /// Counts the lines of a text for the error output.
    pub fn add_lines(&self, text: &[u8]) {
        let lines = text.iter().filter(|b| **b == b'\n').count() as u64;
        self.lines.set(self.lines.get().saturating_add(lines));
    }
}
