//! The runtime of a trial.
use crate::exchange::Exchanges;
use crate::file::{TrialDir, TrialFile};
use crate::plan::{Plan, SystemCall};
use crate::reader::{Opened, TrialReader};
use standard_streams::Streams;
use std::alloc::{AllocError, Allocator, Global};
use std::env::FillError;
use std::fmt::Display;
use std::fs::{self, Files, Metadata, OpenOptions, Permissions};
use std::io::{self, BufRead, BufReader, Lines, Write};
use std::path::PathBuf;
use std::rc::Rc;
use std::rt::{Clock, Env, Runtime};
use std::time::Duration;

/// The file in the working directory that a trial has as its standard input.
pub const INPUT: &str = "input";

/// The file in the working directory to which a trial writes its standard output.
pub const OUTPUT: &str = "output";

const OUTPUT_LINK: &str = "/proc/self/fd/1";

/// The system, whose calls go by a plan. The standard input and output are files in the working directory, and the lines of the error
/// output are counted and not written. A sleep returns at once.
#[derive(Clone, Drop)]
pub struct Trial {
    rt: HostRuntime,
    plan: Rc<Plan>,
    exchanges: Rc<Exchanges>,
}

impl Trial {
    /// The system, with a plan by which all calls succeed.
    pub fn new(rt: HostRuntime) -> Result<Trial, AllocError> {
        let plan = Rc::new(rt.alloc(), Plan::new())?;
        let exchanges = Rc::new(rt.alloc(), Exchanges::new())?;
        Ok(Trial {
            rt,
            plan,
            exchanges,
        })
    }

    /// The plan of this runtime and its copies.
    pub fn plan(&self) -> &Plan {
        &self.plan
    }

    /// The directories that are replaced while this runtime and its copies work.
    pub fn exchanges(&self) -> &Exchanges {
        &self.exchanges
    }

    // Counts a call by a path. If a directory is to be replaced before it, this is done now.
    fn pass(&self, call: SystemCall) -> io::Result<()> {
        if let Some(exchange) = self.exchanges.pass() {
            self.rt.rename(exchange.dir, exchange.aside)?;
            self.rt.symlink(exchange.target, exchange.dir)?;
        }
        self.plan.pass(call)
    }

    // The plan for what is opened.
    fn share(&self) -> io::Result<Rc<Plan>> {
        Ok(self.plan.clone()?)
    }

    fn open_input(&self) -> io::Result<Opened> {
        let file = fs::open(&self.rt, INPUT)?;
        Ok(Opened {
            file: BufReader::new(self.rt.alloc(), file)?,
            plan: self.share()?,
        })
    }
}

impl Runtime for Trial {}

impl Alloc for Trial {
    type A = Global;

    fn alloc(&self) -> Global {
        self.rt.alloc()
    }
}

impl Streams for Trial {
    fn write_output(&self, bytes: &[u8]) -> io::Result<usize> {
        let most = self.plan.pass_moving(SystemCall::Write, bytes.len())?;
        let mut how = OpenOptions::new();
        how.append(true).create(true);
        how.open(&self.rt, OUTPUT)?.write(&bytes[..most])
    }

    fn write_error(&self, bytes: &[u8]) -> io::Result<usize> {
        self.plan.add_lines(bytes);
        Ok(bytes.len())
    }
}

impl Print for Trial {
    fn print<D: Display + Drop>(&self, value: D) -> io::Result<()> {
        self.rt.print(value)
    }

    fn println<D: Display + Drop>(&self, value: D) -> io::Result<()> {
        self.rt.println(value)
    }

    fn write_all(&self, bytes: &[u8]) -> io::Result<()> {
        self.rt.write_all(bytes)
    }
}

impl Eprint for Trial {
    fn eprint<D: Display + Drop>(&self, value: D) -> io::Result<()> {
        self.rt.eprint(value)
    }

    fn eprintln<D: Display + Drop>(&self, value: D) -> io::Result<()> {
        self.rt.eprintln(value)
    }
}

impl Input for Trial {
    type Reader = TrialReader;

    fn read_line<A: Allocator + Clone>(&self, buf: &mut String<A>) -> io::Result<usize> {
        self.reader().read_line(buf)
    }

    fn lines<A: Allocator>(&self, alloc: A) -> Lines<TrialReader, A> {
        self.reader().lines(alloc)
    }

    fn reader(&self) -> TrialReader {
        TrialReader::new(self.open_input().ok())
    }
}

impl Env for Trial {
    fn arg(&self, i: usize, buf: &mut [u8]) -> Result<usize, FillError> {
        self.rt.arg(i, buf)
    }

    fn var(&self, name: &str, buf: &mut [u8]) -> Result<usize, FillError> {
        self.rt.var(name, buf)
    }

    fn var_at(&self, i: usize, buf: &mut [u8]) -> Result<usize, FillError> {
        self.rt.var_at(i, buf)
    }

    fn current_dir(&self, buf: &mut [u8]) -> io::Result<usize> {
        self.rt.current_dir(buf)
    }
}

impl Clock for Trial {
    fn monotonic(&self) -> io::Result<Duration> {
        self.rt.monotonic()
    }

    fn since_1970(&self) -> io::Result<Duration> {
        self.rt.since_1970()
    }
}

impl Files for Trial {
    type File = TrialFile;

    type Dir = TrialDir;

    fn open_file(&self, how: &OpenOptions, path: &str) -> io::Result<TrialFile> {
        self.pass(SystemCall::Open)?;
        Ok(TrialFile::new(self.rt.open_file(how, path)?, self.share()?))
    }

    fn open_dir(&self, path: &str) -> io::Result<TrialDir> {
        self.pass(SystemCall::Open)?;
        Ok(TrialDir::new(self.rt.open_dir(path)?, self.share()?))
    }

    fn metadata(&self, path: &str) -> io::Result<Metadata> {
        self.pass(SystemCall::Look)?;
        self.rt.metadata(path)
    }

    fn symlink_metadata(&self, path: &str) -> io::Result<Metadata> {
        self.pass(SystemCall::Look)?;
        self.rt.symlink_metadata(path)
    }

    fn copy(&self, from: &str, to: &str) -> io::Result<u64> {
        self.pass(SystemCall::Write)?;
        self.rt.copy(from, to)
    }

    fn rename(&self, from: &str, to: &str) -> io::Result<()> {
        self.pass(SystemCall::Rename)?;
        self.rt.rename(from, to)
    }

    fn remove_file(&self, path: &str) -> io::Result<()> {
        self.pass(SystemCall::Remove)?;
        self.rt.remove_file(path)
    }

    fn create_dir(&self, path: &str) -> io::Result<()> {
        self.pass(SystemCall::Make)?;
        self.rt.create_dir(path)
    }

    fn create_dir_with_mode(&self, path: &str, mode: u32) -> io::Result<()> {
        self.pass(SystemCall::Make)?;
        self.rt.create_dir_with_mode(path, mode)
    }

    fn remove_dir(&self, path: &str) -> io::Result<()> {
        self.pass(SystemCall::Remove)?;
        self.rt.remove_dir(path)
    }

    fn remove_dir_all<B: Allocator>(&self, alloc: B, path: &str) -> io::Result<()> {
        self.pass(SystemCall::Remove)?;
        self.rt.remove_dir_all(alloc, path)
    }

    fn canonicalize<B: Allocator>(&self, alloc: B, path: &str) -> io::Result<PathBuf<B>> {
        self.pass(SystemCall::Look)?;
        self.rt.canonicalize(alloc, path)
    }

    fn read_link<B: Allocator>(&self, alloc: B, path: &str) -> io::Result<PathBuf<B>> {
        self.pass(SystemCall::Look)?;
        if path == OUTPUT_LINK && self.plan.is_terminal() {
            return Ok(PathBuf::from_str(alloc, "/dev/pts/0")?);
        }
        self.rt.read_link(alloc, path)
    }

    fn symlink(&self, original: &str, link: &str) -> io::Result<()> {
        self.pass(SystemCall::Make)?;
        self.rt.symlink(original, link)
    }

    fn set_permissions(&self, path: &str, perm: Permissions) -> io::Result<()> {
        self.pass(SystemCall::Change)?;
        self.rt.set_permissions(path, perm)
    }
}
