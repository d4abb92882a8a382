//! Lines on the error output about an update of a directory.
use crate::conf_lines::{ConfLines, absent_dir};
use crate::job::Job;
use cache_layout::ENTRIES_MAX;
use command_status::Status;
use diagnostics::{note_fewer, note_machines};
use image_folder::HeldFile;
use ldconfig_core::Report;
use ldso_conf::{Conf, Origin};
use root_words::RootWordsFault;
use standard_streams::{ErrorLines, Streams, printable, printable_bytes, write_text};
use std::io;
use std::rt::Runtime;
use std::str::from_utf8;
use tree_face::NODES_MAX;
use tree_real::{FolderDisk, FolderStore};

/// Warns about the cache that was written, and about libraries for machines that no cache is built for.
pub fn note_root<R: Runtime + Streams>(
    rt: &R,
    store: &FolderStore<R>,
    disk: &FolderDisk<R>,
) -> io::Result<()> {
    let cache = printable(rt, disk.cache_file())?;
    let written = disk.written();
    if written.entries == Some(0) {
        let line = format!(in rt.alloc();
            "ldconfig: {cache}: no libraries: no file of the directories that are searched is one for the cache\n"
        )?;
        write_text(rt, line.as_str())?;
    }
    note_fewer(rt, cache.as_str(), written)?;
    note_machines(rt, store.machines())
}

/// Reports the problems of a report and, with `-v`, the missing directories and the linker scripts. Lines about a line of a conf file name it.
/// Lines on the auxiliary cache name its file as it is given.
pub fn note_report<R: Runtime + Streams>(
    rt: &R,
    job: &Job<'_, '_>,
    report: &Report,
    conf: &Conf,
    store: &mut FolderStore<R>,
) -> io::Result<()>
where
    R::File: HeldFile,
{
    let mut lines = ErrorLines::new(rt);
    let added = add_report(&mut lines, job, report, conf, store);
    lines.write()?;
    added
}

fn add_report<R: Runtime + Streams>(
    lines: &mut ErrorLines<'_, R>,
    job: &Job<'_, '_>,
    report: &Report,
    conf: &Conf,
    store: &mut FolderStore<R>,
) -> io::Result<()>
where
    R::File: HeldFile,
{
    let mut conf_lines = ConfLines::new(conf);
    for bytes in report.text.as_bytes().split(|b| *b == b'\n') {
        let line = text_of(lines.rt(), bytes)?;
        let line = line.as_str();
        if let Some(damage) = line.strip_prefix("aux: ") {
            add_damage(lines, job.aux.path.unwrap_or(""), damage)?;
        } else if let Some(fault) = line.strip_prefix("conf: ") {
            let origin = conf_lines.next(bytes);
            // If a directory of the conf file is missing, that isn't a problem.
            if job.verbose || absent_dir(bytes).is_none() {
                add_conf(lines, origin, fault)?;
            }
        } else if is_shown(job, line) && (job.verbose || !is_script(store, line)) {
            add_line(lines, job.target.front(), line)?;
        }
    }
    Ok(())
}

// A line of a report as text. The texts of conf files may not be UTF-8.
fn text_of<R: Runtime>(rt: &R, line: &[u8]) -> io::Result<String<R::A>> {
    match from_utf8(line) {
        Ok(text) => Ok(String::from_str(rt.alloc(), text)?),
        Err(_) => printable_bytes(rt, line),
    }
}

fn add_damage<R: Runtime + Streams>(
    lines: &mut ErrorLines<'_, R>,
    file: &str,
    damage: &str,
) -> io::Result<()> {
    let rt = lines.rt();
    let file = printable(rt, file)?;
    let line = format!(in rt.alloc();
        "ldconfig: {file}: {damage}: the auxiliary cache isn't used, and each library was read\n"
    )?;
    lines.add(line.as_str())
}

// Adds a line on what can't be used of the conf files, after the line of the file that it is about.
fn add_conf<R: Runtime + Streams>(
    lines: &mut ErrorLines<'_, R>,
    origin: Option<&Origin>,
    fault: &str,
) -> io::Result<()> {
    let Some(origin) = origin else {
        return add_problem(lines, fault, "");
    };
    let file = text_of(lines.rt(), origin.file.as_bytes())?;
    let (file, number) = (file.as_str(), origin.line);
    let text = format!(in lines.rt().alloc(); "{file}:{number}: {fault}")?;
    add_problem(lines, text.as_str(), "")
}

// Whether a line is shown. In a directory of this machine, a link that leads to no file of its tree may lead to another file of this
// machine.
fn is_shown(job: &Job<'_, '_>, line: &str) -> bool {
    !line.starts_with("dangling: ") || !job.target.is_of_machine
}

// Whether a line is about a linker script, a text file with a library's name.
fn is_script<R: Runtime>(store: &mut FolderStore<R>, line: &str) -> bool
where
    R::File: HeldFile,
{
    match no_elf_file(line) {
        Some(path) => store.is_linker_script(path),
        None => false,
    }
}

// The file that a line is about, below the root, if it isn't an ELF file.
fn no_elf_file(line: &str) -> Option<&str> {
    line.strip_prefix("skip: /")?.strip_suffix(": NotElf")
}

// The lines of a report that are problems: how each begins, and the text that is written after its path.
const PROBLEMS: [(&str, &str); 3] = [
    ("skip: ", ""),
    (
        "blocked: ",
        ": a file or a directory is where its link should be",
    ),
    ("dangling: ", ": the link leads to no file"),
];

const UNSEARCHABLE: &str =
    ": the loader can't search for a name with a byte above 127 or a number of more than 9 digits";

// What is written after the text of a line, given what is written after lines of its kind.
fn reason_of<'a>(line: &str, reason: &'a str) -> &'a str {
    if line.starts_with("skip: ") && line.ends_with(": Unsearchable") {
        UNSEARCHABLE
    } else {
        reason
    }
}

// Adds a line on a problem. Its path begins with `front`.
fn add_line<R: Runtime + Streams>(
    lines: &mut ErrorLines<'_, R>,
    front: &str,
    line: &str,
) -> io::Result<()> {
    for (beginning, reason) in PROBLEMS {
        if let Some(rest) = line.strip_prefix(beginning) {
            let text = format!(in lines.rt().alloc(); "{front}{rest}")?;
            return add_problem(lines, text.as_str(), reason_of(line, reason));
        }
    }
    Ok(())
}

fn add_problem<R: Runtime + Streams>(
    lines: &mut ErrorLines<'_, R>,
    text: &str,
    reason: &str,
) -> io::Result<()> {
    let rt = lines.rt();
    let shown = printable(rt, text)?;
    let line = format!(in rt.alloc(); "ldconfig: {shown}{reason}\n")?;
    lines.add(line.as_str())
}

/// Says by how much a directory is too large. The devices have already said what failed in them.
pub fn note_fault<R: Runtime + Streams>(rt: &R, root: &str, status: Status) -> io::Result<()> {
    let alloc = rt.alloc();
    let (most_entries, most_nodes) = (ENTRIES_MAX, NODES_MAX);
    let root = printable(rt, root)?;
    let line = match status {
        Status::TooMany { count } => format!(in alloc;
            "ldconfig: {root}: its cache would have {count} entries, and may have {most_entries}\n"
        )?,
        Status::TooLarge { .. } => format!(in alloc;
            "ldconfig: {root}: it has more than {most_nodes} paths\n"
        )?,
        _ => return Ok(()),
    };
    write_text(rt, line.as_str())
}

/// Says why the arguments are rejected.
pub fn note_rejection<R: Runtime + Streams>(rt: &R, fault: &RootWordsFault) -> io::Result<()> {
    match fault {
        RootWordsFault::Refused(text) => {
            let text = printable(rt, from_utf8(text.as_bytes()).unwrap_or("").trim_end())?;
            let line = format!(in rt.alloc(); "ldconfig: {text}\n")?;
            write_text(rt, line.as_str())
        }
        RootWordsFault::Rejected(rejection) => {
            let argument = printable(rt, from_utf8(rejection.argument.as_bytes()).unwrap_or(""))?;
            let advice = rejection.why.advice();
            let line = format!(in rt.alloc(); "ldconfig: {argument} {advice}\n")?;
            write_text(rt, line.as_str())
        }
        RootWordsFault::NoMemory => Ok(()),
    }
}
