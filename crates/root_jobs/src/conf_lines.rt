//! The lines of conf files that a report is about.
use ldso_conf::{Conf, ConfReport, Origin};
use lib_types::Text;
use std::iter::Zip;
use std::slice::Iter;

/// The lines of conf files that the `conf:` lines of a report are about, in their order: first those that can't be used, then the missing
/// directories.
#[derive(Drop)]
pub struct ConfLines<'c> {
    reports: Iter<'c, ConfReport>,
    dirs: Zip<Iter<'c, Text>, Iter<'c, Origin>>,
}

impl<'c> ConfLines<'c> {
    /// The lines that the reading of these conf files reports.
    pub fn new(conf: &'c Conf) -> ConfLines<'c> {
        ConfLines {
            reports: conf.reports.as_slice().iter(),
            dirs: conf
                .dirs
                .as_slice()
                .iter()
                .zip(conf.origins.as_slice().iter()),
        }
    }

    /// What the next `conf:` line of the report is about: a line of a conf file, or None if it is about a whole file or a directory of the
    /// command line.
    pub fn next(&mut self, line: &[u8]) -> Option<&'c Origin> {
        let origin = match self.reports.next() {
            Some(report) => report.origin.as_ref()?,
            None => self.missing(absent_dir(line)?)?,
        };
        if origin.line == 0 { None } else { Some(origin) }
    }

    // The line that names a missing directory, after the one before.
    fn missing(&mut self, dir: &[u8]) -> Option<&'c Origin> {
        let (_, origin) = self.dirs.find(|(other, _)| other.as_bytes() == dir)?;
        Some(origin)
    }
}

/// The directory that a line of a report says is missing.
pub fn absent_dir(line: &[u8]) -> Option<&[u8]> {
    line.strip_prefix(b"conf: ")?.strip_suffix(b": Absent")
}
