//! What has been read of the conf files so far.
ghost use Rattle.std.specs.Prelude.{◌≡◌, ◌≤◌, false, length, All, OnOk};
ghost use Rattle.ldso_conf.specs.Reading.{reported, was_read};
ghost use Rattle.ldso_conf.specs.Visits.{nothing_read, with_begun, with_dir, with_read, with_report, IsConfFrom};

use crate::kinds::{Conf, ConfKind, ConfReport, ConfReports, Origin, Origins};
use lib_types::{NoMemory, Text, Texts};
use std::alloc::Global;
use std::marker::Model;
use string_pool::TextSet;
use tree_face::PATH_MAX;

/// What has been read so far. Every directory has at most 4095 bytes, whatever the store contains.
#[derive(Drop)]
pub(crate) struct Reader {
    dirs: Texts,
    origins: Origins,
    reports: ConfReports,
    read: TextSet,
    files: u32,
}

impl Model for Reader {
    ghost use Rattle.std.specs.Prelude.{◌≤◌, All, length};
    ghost use Rattle.image_tree.specs.declared.path.TheConstants.{PATH_MAX};
    ghost use Rattle.ldso_conf.specs.Visits.{Progress};

    ghost Value = { Progress };

    ghost view = { λ s. record { dirs = s.dirs; origins = s.origins; reports = s.reports; read = s.read; files = s.files } };

    ghost invariant = { λ s. All (λ dir. length dir ≤ PATH_MAX) s.dirs };
}

impl Reader {
    /// Nothing is read so far.
    pub(crate) fn new(alloc: Global) -> Reader
        ensures { result ≡ nothing_read }
    {
        Reader {
            dirs: Texts::new(alloc),
            origins: Origins::new(alloc),
            reports: ConfReports::new(alloc),
            read: TextSet::new(alloc),
            files: 0,
        }
    }

    /// Adds a report.
    pub(crate) fn add_report(&mut self, report: ConfReport) -> Result<(), NoMemory>
        ensures { OnOk result (self.new ≡ with_report self.old report) }
    {
        self.reports.push(report)
    }

    /// Adds a report about the file of this path.
    pub(crate) fn report(&mut self, place: Text, kind: ConfKind) -> Result<(), NoMemory>
        ensures { OnOk result (self.new ≡ with_report self.old (reported place kind)) }
    {
        let origin = None;
        self.add_report(ConfReport {
            place,
            kind,
            origin,
        })
    }

    /// Adds a directory, or reports it if it is too long.
    pub(crate) fn add_dir(&mut self, dir: Text, origin: Origin) -> Result<(), NoMemory>
        ensures { OnOk result (self.new ≡ with_dir self.old dir origin) }
    {
        if dir.as_bytes().len() > PATH_MAX {
            return self.add_report(ConfReport {
                place: dir,
                kind: ConfKind::LongPath,
                origin: Some(origin),
            });
        }
        self.dirs.push(dir)?;
        self.origins.push(origin)
    }

    /// Whether the file at this resolved path was read.
    pub(crate) fn was_read(&self, place: &[u8]) -> bool
        ensures { result ≡ was_read self.now.read place.now }
    {
        self.read.contains(place)
    }

    /// Counts a file that is opened.
    pub(crate) fn count_file(&mut self) -> Result<(), NoMemory>
        ensures { OnOk result (self.new ≡ with_begun self.old) }
    {
        let Some(files) = self.files.checked_add(1) else {
            return Err(NoMemory);
        };
        self.files = files;
        Ok(())
    }

    /// Adds the resolved path of a file that is read.
    pub(crate) fn add_read(&mut self, place: Text) -> Result<(), NoMemory>
        requires { was_read self.old.read place ≡ false }
        ensures { OnOk result (self.new ≡ with_read self.old place) }
    {
        self.read.insert(place)
    }

    /// The result of the reading.
    pub(crate) fn into_conf(self) -> Conf
        ensures conf { IsConfFrom result self }
        ensures short { All (λ dir. length dir ≤ PATH_MAX) result.dirs }
    {
        Conf {
            dirs: self.dirs,
            origins: self.origins,
            reports: self.reports,
            files: self.files,
        }
    }
}
