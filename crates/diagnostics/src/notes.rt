//! Lines on the error output about a finished update, and about inputs that are too large.
use crate::texts::{SHOWN, cause_in_script, cause_of, fewer};
use crate::unsearched::note_unsearched;
use cache_layout::ENTRIES_MAX;
use command_status::{ScriptKind, Status};
use device_rules::machine_name;
use hwcap_dirs::{SYSTEM_DIRS, next_system_dir};
use image_folder::HeldFile;
use mtree_manifest::{MANIFEST_MAX, ManifestFault};
use script_runs::SCRIPT_MAX;
use slot_files::Written;
use standard_streams::{Streams, printable, write_text};
use std::alloc::AllocError;
use std::io;
use std::rt::Runtime;
use tree_face::NODES_MAX;
use tree_real::{FolderDisk, FolderStore, Machines, StdinSource};

/// Warns about a finished update. Only an update writes a cache.
pub fn note_update<R: Runtime + AllocGlobal + Streams>(
    rt: &R,
    store: &FolderStore<R>,
    disk: &mut FolderDisk<R>,
) -> io::Result<()>
where
    R::File: HeldFile,
{
    let written = disk.written();
    if written.entries == Some(0) {
        let why = why_none(written.manifest_length, store.begun());
        let line = format!(in rt.alloc(); "ldconfig: etc/ld.so.cache: no libraries: {why}\n")?;
        write_text(rt, line.as_str())?;
        if store.begun() == 0 {
            note_unsearched(rt, disk)?;
        }
    }
    note_fewer(rt, "etc/ld.so.cache", written)?;
    if !store.has_read_conf() {
        let dirs = system_dirs(rt)?;
        let line = format!(in rt.alloc();
            "ldconfig: etc/ld.so.conf: none was read, so only {dirs} are searched\n"
        )?;
        write_text(rt, line.as_str())?;
    }
    note_machines(rt, store.machines())
}

/// Says that a cache has fewer entries than the one before it.
pub fn note_fewer<R: Runtime + Streams>(rt: &R, cache: &str, written: Written) -> io::Result<()> {
    let Some((old, new)) = fewer(written.entries_before, written.entries) else {
        return Ok(());
    };
    let line = format!(in rt.alloc();
        "ldconfig: {cache}: {new} libraries, and the cache before had {old}\n"
    )?;
    write_text(rt, line.as_str())
}

// The system's directories in their order, as a sentence lists them.
fn system_dirs<R: Runtime>(rt: &R) -> Result<String<R::A>, AllocError> {
    let mut text = String::new(rt.alloc());
    for done in 0..SYSTEM_DIRS {
        let between = match done {
            0 => "",
            n if n + 1 == SYSTEM_DIRS => " and ",
            _ => ", ",
        };
        if let Some((dir, _)) = next_system_dir(done) {
            text.push_str(between)?;
            text.push_str(std::str::from_utf8(dir).unwrap_or(""))?;
        }
    }
    Ok(text)
}

// A manifest without a line has at most this number of bytes.
const HEAD_LENGTH: u64 = 7;

fn why_none(length: Option<u64>, begun: u64) -> &'static str {
    match length {
        Some(length) if length <= HEAD_LENGTH => "image.mtree is empty",
        _ if begun == 0 => {
            "image.mtree has no library for the cache in the directories that are searched"
        }
        _ => "no file that was read is one for the cache; the lines skip: on the output say why",
    }
}

/// Says for which machines there are libraries but no cache is built.
pub fn note_machines<R: Runtime + Streams>(rt: &R, machines: &Machines<R>) -> io::Result<()> {
    let Some(first) = &machines.first else {
        return Ok(());
    };
    let path = printable(rt, first.path.as_str())?;
    let number = first.number;
    let name = machine_name(number).unwrap_or("an unknown machine");
    let files = machines.files;
    let line = format!(in rt.alloc();
        "ldconfig: {path}: for {name} (machine {number}), for which no cache is made; files of such machines: {files}\n"
    )?;
    write_text(rt, line.as_str())
}

/// Says by how much something is too large or too long.
pub fn note_size<R: Runtime + Streams>(
    rt: &R,
    status: Status,
    length: Option<u64>,
) -> io::Result<()> {
    let alloc = rt.alloc();
    let (most_entries, most_nodes, most_bytes) = (ENTRIES_MAX, NODES_MAX, MANIFEST_MAX);
    let line = match status {
        Status::TooMany { count } => format!(in alloc;
            "ldconfig: etc/ld.so.cache: it would have {count} entries, and may have {most_entries}\n"
        )?,
        Status::TooLarge { nodes, bytes: 0 } => format!(in alloc;
            "ldconfig: image.mtree: with the links of its libraries it would have {nodes} nodes, and it may have {most_nodes}\n"
        )?,
        Status::TooLarge { bytes, .. } => format!(in alloc;
            "ldconfig: image.mtree: with the links of its libraries it would have {bytes} bytes, and it may have {most_bytes}\n"
        )?,
        Status::BadManifest(ManifestFault::TooLong { .. }) => {
            let length = length.unwrap_or(0);
            format!(in alloc;
                "ldconfig: image.mtree: it has {length} bytes, and may have {most_bytes}\n"
            )?
        }
        _ => return Ok(()),
    };
    write_text(rt, line.as_str())
}

// Why a node isn't taken whose path goes on below a file or a link.
const BELOW_NO_DIRECTORY: &str = "it would put something below a file or a link";

/// Says what is wrong with a line of the manifest, and shows its beginning.
pub fn note_manifest<R: Runtime + AllocGlobal + Streams>(
    rt: &R,
    disk: &mut FolderDisk<R>,
    fault: ManifestFault,
) -> io::Result<()>
where
    R::File: HeldFile,
{
    let (number, kind) = match fault {
        ManifestFault::Bad { line, kind } => (line, Some(kind)),
        ManifestFault::Clash { line } | ManifestFault::TooMany { line } => (line, None),
        ManifestFault::TooLong { .. } | ManifestFault::NoMemory => return Ok(()),
    };
    let line = disk.manifest_line(rt.alloc(), number)?;
    let too_many = too_many(rt)?;
    let cause = match (kind, fault) {
        (Some(kind), _) => cause_of(kind, &line),
        (None, ManifestFault::Clash { .. }) => BELOW_NO_DIRECTORY,
        (None, _) => too_many.as_str(),
    };
    let quoted = quoted(rt, &line)?;
    let lines = format!(in rt.alloc();
        "ldconfig: image.mtree:{number}: {cause}: {quoted}: docs/FORMATS.md says what a line may be\n"
    )?;
    write_text(rt, lines.as_str())
}

/// Says what is wrong with a line of the script, and shows its beginning if the line is kept.
pub fn note_script<R: Runtime + Streams>(
    rt: &R,
    input: &StdinSource<R>,
    number: u64,
    kind: ScriptKind,
) -> io::Result<()> {
    match kind {
        ScriptKind::Bad(kind) => note_script_line(rt, input, number, cause_in_script(kind)),
        ScriptKind::Clash => note_script_line(rt, input, number, BELOW_NO_DIRECTORY),
        ScriptKind::NotThere => {
            note_script_line(rt, input, number, "nothing is at the path that it drops")
        }
        ScriptKind::Full => {
            let cause = too_many(rt)?;
            note_script_line(rt, input, number, cause.as_str())
        }
    }
}

fn note_script_line<R: Runtime + Streams>(
    rt: &R,
    input: &StdinSource<R>,
    number: u64,
    cause: &str,
) -> io::Result<()> {
    let shown = shown_line(rt, input, number)?;
    let line = format!(in rt.alloc();
        "ldconfig: standard input:{number}: {cause}{shown}: docs/FORMATS.md says what a line may be\n"
    )?;
    write_text(rt, line.as_str())
}

// What follows the cause: the line in quotation marks, if it is kept.
fn shown_line<R: Runtime>(
    rt: &R,
    input: &StdinSource<R>,
    number: u64,
) -> Result<String<R::A>, AllocError> {
    match input.line(number) {
        Some(line) => {
            let quoted = quoted(rt, line)?;
            format!(in rt.alloc(); ": {quoted}")
        }
        None => Ok(String::new(rt.alloc())),
    }
}

/// Says that the script is too long.
pub fn note_long_script<R: Runtime + Streams>(rt: &R) -> io::Result<()> {
    let most = SCRIPT_MAX;
    let line = format!(in rt.alloc();
        "ldconfig: standard input: it has more than {most} bytes: divide the script\n"
    )?;
    write_text(rt, line.as_str())
}

fn too_many<R: Runtime>(rt: &R) -> Result<String<R::A>, AllocError> {
    let most = NODES_MAX;
    format!(in rt.alloc(); "the image would have more than {most} nodes")
}

// A line in quotation marks, or its beginning followed by two dots.
fn quoted<R: Runtime>(rt: &R, line: &[u8]) -> Result<String<R::A>, AllocError> {
    let shown = escaped(rt, line)?;
    let dots = if line.len() > SHOWN { ".." } else { "" };
    format!(in rt.alloc(); "\"{shown}\"{dots}")
}

// The first bytes of a line: what isn't printable ASCII is written as the number of the byte.
fn escaped<R: Runtime>(rt: &R, line: &[u8]) -> Result<String<R::A>, AllocError> {
    let mut shown = String::new(rt.alloc());
    for byte in line.iter().take(SHOWN) {
        push_escaped(rt, &mut shown, *byte)?;
    }
    Ok(shown)
}

fn push_escaped<R: Runtime>(rt: &R, shown: &mut String<R::A>, byte: u8) -> Result<(), AllocError> {
    if byte == b' ' || byte.is_ascii_graphic() {
        return shown.push(byte as char);
    }
    let escape = format!(in rt.alloc(); "\\{byte:03o}")?;
    shown.push_str(escape.as_str())
}
