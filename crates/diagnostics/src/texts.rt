//! Advice for a person after a command has ended. The devices have already said what failed in them.
ghost use Rattle.std.specs.Prelude.{◌≡◌, ◌↔◌, ◌||◌, ℕ, Some, IsTrue, IsSome};
ghost use Rattle.diagnostics.specs.Notes.{IsFewer, has_advice, is_part};

use command_status::{LayerKind, Status};
use command_words::Verb;
use mtree_manifest::LineKind;
use standard_streams::OUT_OF_MEMORY;
use std::str::from_utf8;

/// The version of the program, and of the kit that built it.
pub const VERSION: &str =
    "ldconfig for images, release version 1 (made with the Rattle kit, logic dac8208d650f15bf)\n";

const ROOT_USAGE: &str = "\
usage: ldconfig -r ROOT [-N] [-X] [-f CONF] [-C CACHE] [-v] [--aux-cache FILE] [-i] [--check]: makes the links of the libraries in the directory ROOT, and then ROOT/etc/ld.so.cache; -N builds no cache, -X makes no links; CONF and CACHE are paths in ROOT in place of etc/ld.so.conf and etc/ld.so.cache; -v lists the directories and libraries; FILE, of this machine, keeps what the libraries are for the next run, and -i does not read it; --check writes nothing, lists what would change, and ends with status 1 if anything would
usage: ldconfig -n [-r ROOT] [-X] [-v] [--aux-cache FILE] [-i] [--check] DIR..: makes the links of the libraries in each directory DIR, and no cache; with -r, DIR is a path in ROOT
usage: ldconfig -p -r ROOT [-C CACHE]: prints ROOT/etc/ld.so.cache, or CACHE, a path in ROOT
usage: ldconfig -p -C CACHE: prints the file CACHE
usage: ldconfig --help, or -?: prints this text; ldconfig COMMAND --help prints the line of a command; ldconfig --version, or -V: prints the first line of it
";

const UPDATE_USAGE: &str = "\
usage: ldconfig update [--tag N]: plans the links of the libraries in image.mtree, in the directory of an image, and makes etc/ld.so.cache; the same without arguments
";

const BATCH_USAGE: &str = "\
usage: ldconfig batch [--tag N]: takes a script from the input: lines put LINE, with a line of a manifest, and drop PATH edit image.mtree, and each line update does what ldconfig update does; edits after the last update are not written
";

const LAYERS_USAGE: &str = "\
usage: ldconfig layers KEY..: does what ldconfig update does, with the image that layers make, in place of image.mtree: 1 to 64 files KEY, each the manifest of a layer with its whiteouts, the lowest layer first; image.mtree then has the image's manifest
";

const SAMPLE_USAGE: &str = "\
usage: ldconfig sample N: updates images of N synthetic libraries, 1 to 20000, in memory, and prints what was done; no file is read or written
";

const PRINT_USAGE: &str = "\
usage: ldconfig print [--json] [-r ROOT], or -p: prints etc/ld.so.cache, or that of the directory ROOT; with --json as JSON
";

const LOOKUP_USAGE: &str = "\
usage: ldconfig lookup NAME [--abi ABI] [--caps LIST] [--json] [-r ROOT]: the path that the loader takes from etc/ld.so.cache, or that of the directory ROOT, with --json as JSON; LIST: hwcaps names between colons, as in ldconfig lookup libz.so.1 --caps x86-64-v3:x86-64-v2
";

const RESOLVE_USAGE: &str = "\
usage: ldconfig resolve {PATH.. | --all} [--caps LIST] [--library-path LIST] [--platform TEXT] [--secure] [--list [-0] | --json | --tree] [-r ROOT]: the libraries that each program or library PATH of the image, or of the directory ROOT, loads, and from where, as ldd lists them, with --json as JSON, or with --tree each below the one that first needed it; --all: of all programs and libraries; with --list all files that they need, one a line for tar -T, or with -0 ended by NUL
";

const USAGE_END: &str =
    "Those without -r, -n and -C run in the directory of an image. What they write and every exit status: README.md and docs/FORMATS.md\n";

/// The usage text: the version, a line for each command, and where they run.
pub const USAGE: [&str; 10] = [
    VERSION,
    ROOT_USAGE,
    UPDATE_USAGE,
    BATCH_USAGE,
    LAYERS_USAGE,
    SAMPLE_USAGE,
    PRINT_USAGE,
    LOOKUP_USAGE,
    RESOLVE_USAGE,
    USAGE_END,
];

/// The line of a command in the usage text.
pub fn usage_of(verb: Verb) -> &'static str {
    match verb {
        Verb::Update => UPDATE_USAGE,
        Verb::Batch => BATCH_USAGE,
        Verb::Layers => LAYERS_USAGE,
        Verb::Sample => SAMPLE_USAGE,
        Verb::Print => PRINT_USAGE,
        Verb::Lookup => LOOKUP_USAGE,
        Verb::Resolve => RESOLVE_USAGE,
    }
}

const NO_MANIFEST: &str =
    "ldconfig: image.mtree: No such file or directory\nldconfig: image-manifest (tools/manifest) makes one: image-manifest FOLDER >manifest && mv manifest FOLDER/image.mtree\n";

const NO_CACHE: &str =
    "ldconfig: etc/ld.so.cache: No such file or directory\nldconfig: ldconfig update makes it\n";

const BAD_CACHE: &str =
    "ldconfig: etc/ld.so.cache: the line on the output says what is wrong, docs/FORMATS.md explains it; ldconfig update makes another\n";

// What is wrong with the layer that the fault line names.
fn layer_advice(kind: LayerKind) -> &'static str {
    match kind {
        LayerKind::Manifest(_) => {
            "ldconfig: layers are counted from 0: the manifest of this one is malformed or longer than 2^26 bytes: ldconfig update says of a manifest which line is wrong\n"
        }
        LayerKind::Whiteout { .. } => {
            "ldconfig: layers are counted from 0: a whiteout of this one names nothing: it is .wh. alone, or followed by a dot or two\n"
        }
        LayerKind::Full => {
            "ldconfig: layers are counted from 0: with this one the image has more than 2^20 files, directories and links\n"
        }
    }
}

/// What is said of a list that isn't whole.
pub const LIST_LACKS: &str =
    "ldconfig: the list isn't whole: without --list the same command says which path or library is missing; if it finds all of them, a program's interpreter (PT_INTERP) isn't there\n";

/// Whether a list ends with this status, but isn't whole.
pub fn is_part_of_list(status: Status) -> bool
    ensures { result ≡ is_part status }
{
    match status {
        Status::Missing | Status::NoProgram | Status::BadProgram(_) => true,
        _ => false,
    }
}

/// What is said of a script whose last edits have no update after them.
pub const EDITS_NOT_WRITTEN: &str =
    "ldconfig: standard input: the edits after the last update were not written: end the script with update\n";

/// The advice for a status, whose lines each end with a line feed.
pub fn advice(status: Status) -> Option<&'static str>
    ensures { IsSome result ↔ IsTrue (has_advice status) }
{
    match status {
        Status::NoManifest => Some(NO_MANIFEST),
        Status::NoCache => Some(NO_CACHE),
        Status::BadCache(_) => Some(BAD_CACHE),
        Status::BadLayer { kind, .. } => Some(layer_advice(kind)),
        Status::NoMemory => Some(OUT_OF_MEMORY),
        _ => None,
    }
}

/// What was written before the output failed.
pub fn written_before(manifest: bool, cache: bool) -> Option<&'static str>
    ensures { IsSome result ↔ IsTrue (manifest || cache) }
{
    match (manifest, cache) {
        (true, true) => Some(
            "ldconfig: image.mtree and etc/ld.so.cache were written; the planned links are in image.mtree, as lines with type=link\n",
        ),
        (true, false) => Some(
            "ldconfig: image.mtree was written; the planned links are in it, as lines with type=link\n",
        ),
        (false, true) => Some("ldconfig: etc/ld.so.cache was written; no link was planned\n"),
        (false, false) => None,
    }
}

/// The entry counts of the old and the new cache, if the new one is lower.
pub fn fewer(before: Option<u32>, now: Option<u32>) -> Option<(u32, u32)>
    ensures { (old new : ℕ) → (result ≡ Some (old, new)) ↔ IsFewer before now old new }
{
    match (before, now) {
        (Some(old), Some(new)) if new < old => Some((old, new)),
        _ => None,
    }
}

/// Why a line of a manifest is malformed, in words.
pub fn cause_of(kind: LineKind, line: &[u8]) -> &'static str {
    match kind {
        LineKind::BadEscape => "a backslash begins no escape",
        LineKind::BadNumber => "a number isn't 1 to 20 digits, or is 2^64 or more",
        LineKind::BadType => "this type isn't one of file, dir, link, block, char, fifo, socket",
        LineKind::NoTarget => "a link has no target",
        LineKind::BadLine => cause_of_form(line),
    }
}

/// Why a line of a script is malformed, in words.
pub fn cause_in_script(kind: LineKind) -> &'static str {
    match kind {
        LineKind::BadLine => {
            "it isn't put LINE, drop PATH or update, or LINE or PATH is malformed"
        }
        _ => cause_of(kind, b""),
    }
}

fn cause_of_form(line: &[u8]) -> &'static str {
    if from_utf8(line).is_err() {
        return "it isn't UTF-8 text";
    }
    let path = match line.iter().position(|b| *b == b' ' || *b == b'\t') {
        Some(end) => line.get(..end).unwrap_or(line),
        None => line,
    };
    if path
        .split(|b| *b == b'/')
        .any(|part| part == b"..".as_slice())
    {
        return "a path has .., or .. closes no directory";
    }
    if path.starts_with(b"/") {
        return "an absolute path that isn't /set, /unset or one with a further slash";
    }
    "a path or a keyword has no form that it may have"
}

/// The most bytes of a line that are shown.
pub const SHOWN: usize = 60;
