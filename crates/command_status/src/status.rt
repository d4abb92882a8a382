//! How a command ends.
ghost use Rattle.std.specs.Prelude.{◌≡◌};
ghost use Rattle.std.specs.Option.{option_map};
ghost use Rattle.command_status.specs.FaultLine.{line_bytes};
ghost use Rattle.command_status.specs.Row.{row_bytes};
ghost use Rattle.command_status.specs.Status.{code_of, fault_line, of_load, of_program, of_resolve, of_update, row_of, saying, silent};

use crate::fault_line::{
    FaultLine, cache_line, layer_line, manifest_line, numbered, program_line, script_line,
    unnumbered,
};
use cache_reader::CacheDefect;
use image_session::LoadFault;
use ldconfig_core::UpdateFault;
use ldd_resolve::{ProgramFault, ResolveFault};
use lib_types::Defect;
use mtree_manifest::{LineKind, ManifestFault};

/// Why a line of a script isn't accepted.
#[derive(Clone, Copy, Debug, PartialEq, Eq)]
pub enum ScriptKind {
    /// It is not a line of a script.
    Bad(LineKind),
    /// A file or a link would have something below it.
    Clash,
    /// The path that it removes has no node.
    NotThere,
    /// The tree already has the most nodes that a tree may have.
    Full,
}

/// Why a layer can't be part of an image.
#[derive(Clone, Copy, Debug, PartialEq, Eq)]
pub enum LayerKind {
    /// Its manifest has no tree. This fault is never `NoMemory`.
    Manifest(ManifestFault),
    /// The rest of a whiteout's name isn't a name. Nodes are counted from 0, in the order of their paths.
    Whiteout { node: u64 },
    /// The union of the layers up to this one has more nodes than a tree may have.
    Full,
}

/// How a command ended.
#[derive(Clone, Copy, Debug, PartialEq, Eq)]
pub enum Status {
    /// All was done.
    Done,
    /// The cache has no path for the name, or a library that the program needs isn't found.
    Missing,
    /// The arguments are not a command.
    Usage,
    /// The manifest has no tree. This fault is never `NoMemory`.
    BadManifest(ManifestFault),
    /// This line of the script, counted from 1, isn't accepted. The lines before it were.
    BadScript { line: u64, kind: ScriptKind },
    /// The Cache slot holds nothing.
    NoCache,
    /// The first defect of the cache.
    BadCache(CacheDefect),
    /// The program's path leads to no file.
    NoProgram,
    /// The first defect of the program's file.
    BadProgram(Defect),
    /// More entries than a cache may have.
    TooMany { count: u64 },
    /// The store has failed, or doesn't hold a file that had to be read.
    StoreFault,
    /// The disk has failed.
    DiskFault,
    /// The source has failed.
    InputFault,
    /// The sink has failed.
    OutputFault,
    /// Out of memory.
    NoMemory,
    /// The input has more bytes than a script may have. `taken` bytes of it were read.
    TooLong { taken: u64 },
    /// The disk has no manifest.
    NoManifest,
    /// The tree with the planned links has more nodes than a tree may have, or its manifest more bytes than a manifest may have.
    TooLarge { nodes: u64, bytes: u64 },
    /// This layer, counted from 0, is the first one that can't be part of an image.
    BadLayer { layer: u64, kind: LayerKind },
}

// The exit status, and the fault line if there is one.
#[derive(Clone, Copy)]
pub(crate) struct Row {
    pub code: u8,
    pub fault: Option<FaultLine>,
}

fn silent(code: u8) -> Row
    ensures { row_bytes result ≡ silent code }
{
    Row { code, fault: None }
}

fn saying(code: u8, line: FaultLine) -> Row
    ensures { row_bytes result ≡ saying code (line_bytes line) }
{
    Row {
        code,
        fault: Some(line),
    }
}

impl Status {
    // The table of the statuses: each status has a row here and a clause in `row_of`.
    fn row(self) -> Row
        ensures { row_bytes result ≡ row_of self }
    {
        match self {
            Status::Done => silent(0),
            Status::Missing => silent(1),
            Status::Usage => saying(2, unnumbered(b"fault: Usage\n")),
            Status::BadManifest(fault) => saying(3, manifest_line(fault)),
            Status::BadScript { line, kind } => saying(4, script_line(line, kind)),
            Status::NoCache => saying(5, unnumbered(b"fault: NoCache\n")),
            Status::BadCache(defect) => saying(6, cache_line(defect)),
            Status::NoProgram => saying(7, unnumbered(b"fault: NoProgram\n")),
            Status::BadProgram(defect) => saying(8, program_line(defect)),
            Status::TooMany { count } => saying(9, numbered(b"fault: TooMany", count, b"\n")),
            Status::StoreFault => saying(10, unnumbered(b"fault: StoreFault\n")),
            Status::DiskFault => saying(11, unnumbered(b"fault: DiskFault\n")),
            Status::InputFault => saying(12, unnumbered(b"fault: InputFault\n")),
            Status::OutputFault => silent(13),
            Status::NoMemory => silent(14),
            Status::TooLong { .. } => saying(15, unnumbered(b"fault: TooLong\n")),
            Status::NoManifest => saying(16, unnumbered(b"fault: NoManifest\n")),
            Status::TooLarge { .. } => saying(17, unnumbered(b"fault: TooLarge\n")),
            Status::BadLayer { layer, kind } => saying(19, layer_line(layer, kind)),
        }
    }

    /// The program's exit status.
    pub fn code(self) -> u8
        ensures { result ≡ code_of self }
    {
        self.row().code
    }

    /// The fault line, if the status has one.
    pub(crate) fn fault_line(self) -> Option<FaultLine>
        ensures { option_map line_bytes result ≡ fault_line self }
    {
        self.row().fault
    }
}

impl From<LoadFault> for Status {
    ghost from_gives = { λ fault status. status ≡ of_load fault };

    fn from(fault: LoadFault) -> Self {
        match fault {
            LoadFault::DiskFailed { .. } => Status::DiskFault,
            LoadFault::NoManifest => Status::NoManifest,
            LoadFault::BadManifest(fault) => Status::BadManifest(fault),
            LoadFault::NoMemory => Status::NoMemory,
        }
    }
}

impl From<UpdateFault> for Status {
    ghost from_gives = { λ fault status. status ≡ of_update fault };

    fn from(fault: UpdateFault) -> Self {
        match fault {
            UpdateFault::StoreFault => Status::StoreFault,
            UpdateFault::TooLarge { nodes, bytes } => Status::TooLarge { nodes, bytes },
            UpdateFault::TooMany { count } => Status::TooMany { count },
            UpdateFault::DiskFault(_) => Status::DiskFault,
            UpdateFault::NoMemory => Status::NoMemory,
        }
    }
}

impl From<ResolveFault> for Status {
    ghost from_gives = { λ fault status. status ≡ of_resolve fault };

    fn from(fault: ResolveFault) -> Self {
        match fault {
            ResolveFault::NoProgram => Status::NoProgram,
            ResolveFault::BadProgram(defect) => Status::BadProgram(defect),
            ResolveFault::StoreFault => Status::StoreFault,
            ResolveFault::NoMemory => Status::NoMemory,
        }
    }
}

impl From<ProgramFault> for Status {
    ghost from_gives = { λ fault status. status ≡ of_program fault };

    fn from(fault: ProgramFault) -> Self {
        match fault {
            ProgramFault::NoProgram => Status::NoProgram,
            ProgramFault::BadProgram(defect) => Status::BadProgram(defect),
        }
    }
}
