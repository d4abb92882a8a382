//! What was found to differ.
use std::io;
use std::process::ExitCode;

// No more lines than this are written.
const MOST_LINES: u64 = 20;

/// The differences that were found, each of which has a line on the output.
#[derive(Drop)]
pub struct Report<'r> {
    rt: &'r HostRuntime,
    // What is tried now, and the number of the trial.
    what: &'static str,
    trial: u64,
    differences: u64,
    all: u64,
}

impl<'r> Report<'r> {
    /// Nothing was tried yet.
    pub fn new(rt: &'r HostRuntime) -> Report<'r> {
        Report {
            rt,
            what: "",
            trial: 0,
            differences: 0,
            all: 0,
        }
    }

    /// Begins the trials of this kind.
    pub fn begin(&mut self, what: &'static str) {
        self.what = what;
        self.differences = 0;
    }

    /// From here on, differences are those of the trial with this number.
    pub fn go_to(&mut self, trial: u64) {
        self.trial = trial;
    }

    /// Counts a difference, unless this fact holds. It counts even if its line can't be written.
    pub fn expect(&mut self, is_right: bool, fact: &str) {
        if is_right {
            return;
        }
        self.differences = self.differences.saturating_add(1);
        if self.differences <= MOST_LINES {
            let (what, trial) = (self.what, self.trial);
            let _ = println!(self.rt; "{what}, trial {trial}: {fact}");
        }
    }

    /// Ends the trials of this kind, whose number is `trials`.
    pub fn end(&mut self, trials: u64) -> io::Result<()> {
        let (what, differences) = (self.what, self.differences);
        self.all = self.all.saturating_add(differences);
        println!(self.rt; "{what}: {trials} trials, {differences} differences")
    }

    /// The exit status: success if nothing differed.
    pub fn status(&self) -> ExitCode {
        if self.all == 0 {
            ExitCode::SUCCESS
        } else {
            ExitCode::FAILURE
        }
    }
}
