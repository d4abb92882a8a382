//! Fault lines, which take no memory.
ghost use Rattle.std.specs.Prelude.{◌≡◌, ◌++◌, codes, Some, OnOk};
ghost use Rattle.std.specs.Fmt.{decimal};
ghost use Rattle.lib_types.specs.Defects.{number_text};
ghost use Rattle.tree_face.specs.Stream.{TakesAll};
ghost use Rattle.command_status.specs.CacheFault.{cache_fault};
ghost use Rattle.command_status.specs.FaultLine.{front_bytes, line_bytes};
ghost use Rattle.command_status.specs.ProgramFault.{program_fault};
ghost use Rattle.command_status.specs.Status.{kind_text, layer_kind_text, layer_text, manifest_text, script_kind_text, script_text};

use crate::status::{LayerKind, ScriptKind};
use cache_reader::CacheDefect;
use lib_types::{Defect, Failed, NoMemory};
use mtree_manifest::{LineKind, ManifestFault};
use tree_face::{Sink, put_all};

/// The parts of a line. A number follows a space.
#[derive(Clone, Copy)]
pub(crate) struct FaultLine {
    lead: &'static [u8],
    front: &'static [u8],
    number: Option<u64>,
    back: &'static [u8],
}

/// A line without a number.
pub(crate) fn unnumbered(text: &'static [u8]) -> FaultLine
    ensures { line_bytes result ≡ text.now }
{
    FaultLine {
        lead: b"",
        front: text,
        number: None,
        back: b"",
    }
}

/// A line with a number in it.
pub(crate) fn numbered(front: &'static [u8], number: u64, back: &'static [u8]) -> FaultLine
    ensures { line_bytes result ≡ front.now ++ (codes " " ++ decimal number) ++ back.now }
{
    FaultLine {
        lead: b"",
        front,
        number: Some(number),
        back,
    }
}

// The text after the line number of a manifest's fault line.
fn kind_text(kind: LineKind) -> &'static [u8]
    ensures { result.now ≡ codes ": " ++ kind_text kind ++ codes "\n" }
{
    match kind {
        LineKind::BadLine => b": BadLine\n",
        LineKind::BadEscape => b": BadEscape\n",
        LineKind::BadNumber => b": BadNumber\n",
        LineKind::BadType => b": BadType\n",
        LineKind::NoTarget => b": NoTarget\n",
    }
}

/// The fault line of a manifest that has no tree.
pub(crate) fn manifest_line(fault: ManifestFault) -> FaultLine
    ensures { line_bytes result ≡ manifest_text fault }
{
    let front = b"fault: BadManifest line";
    match fault {
        ManifestFault::TooLong { .. } => unnumbered(b"fault: BadManifest: TooLong\n"),
        ManifestFault::Bad { line, kind } => numbered(front, line, kind_text(kind)),
        ManifestFault::Clash { line } => numbered(front, line, b": Clash\n"),
        ManifestFault::TooMany { line } => numbered(front, line, b": TooMany\n"),
        ManifestFault::NoMemory => unnumbered(b""),
    }
}

// The text after the line number of a script's fault line.
fn script_kind_text(kind: ScriptKind) -> &'static [u8]
    ensures { result.now ≡ codes ": " ++ script_kind_text kind ++ codes "\n" }
{
    match kind {
        ScriptKind::Bad(kind) => kind_text(kind),
        ScriptKind::Clash => b": Clash\n",
        ScriptKind::NotThere => b": NotThere\n",
        ScriptKind::Full => b": Full\n",
    }
}

/// The fault line of a script with a line that isn't accepted.
pub(crate) fn script_line(line: u64, kind: ScriptKind) -> FaultLine
    ensures { line_bytes result ≡ script_text line kind }
{
    numbered(b"fault: BadScript line", line, script_kind_text(kind))
}

// The text after the number of a layer in its fault line.
fn layer_kind_text(kind: LayerKind) -> &'static [u8]
    ensures { result.now ≡ codes ": " ++ layer_kind_text kind ++ codes "\n" }
{
    match kind {
        LayerKind::Manifest(_) => b": Manifest\n",
        LayerKind::Whiteout { .. } => b": Whiteout\n",
        LayerKind::Full => b": Full\n",
    }
}

/// The fault line of a layer that can't be part of an image.
pub(crate) fn layer_line(layer: u64, kind: LayerKind) -> FaultLine
    ensures { line_bytes result ≡ layer_text layer kind }
{
    numbered(b"fault: BadLayer", layer, layer_kind_text(kind))
}

/// The fault line of a cache that has a defect.
#[tactic(auto, unfolding(crate::specs::CacheFault::cache_fault))]
pub(crate) fn cache_line(defect: CacheDefect) -> FaultLine
    ensures { line_bytes result ≡ cache_fault defect }
{
    match defect {
        CacheDefect::OldFormat => unnumbered(b"fault: BadCache: OldFormat\n"),
        CacheDefect::Short { len } => numbered(b"fault: BadCache: Short", len, b"\n"),
        CacheDefect::BadMagic => unnumbered(b"fault: BadCache: BadMagic\n"),
        CacheDefect::BadEndian { flags } => numbered(b"fault: BadCache: BadEndian", flags, b"\n"),
        CacheDefect::EntriesOutside { nlibs } => numbered(
            b"fault: BadCache: EntriesOutside",
            nlibs,
            b"\n",
        ),
        CacheDefect::StringOutside { entry } => numbered(
            b"fault: BadCache: StringOutside",
            entry,
            b"\n",
        ),
        CacheDefect::NoNul { entry } => numbered(b"fault: BadCache: NoNul", entry, b"\n"),
        CacheDefect::BadExtension { offset } => numbered(
            b"fault: BadCache: BadExtension",
            offset,
            b"\n",
        ),
        CacheDefect::BadHwcap { entry } => numbered(b"fault: BadCache: BadHwcap", entry, b"\n"),
        CacheDefect::Unsorted { entry } => numbered(b"fault: BadCache: Unsorted", entry, b"\n"),
    }
}

/// The fault line of a program whose file has a defect.
#[tactic(auto, unfolding(crate::specs::ProgramFault::program_fault))]
pub(crate) fn program_line(defect: Defect) -> FaultLine
    ensures { line_bytes result ≡ program_fault defect }
{
    FaultLine {
        lead: b"fault: BadProgram: ",
        front: defect.name(),
        number: defect.number(),
        back: b"\n",
    }
}

// Writes digits after a space.
fn put_spaced<O: Sink>(out: &mut O, digits: &[u8]) -> Result<(), Failed>
    ensures { TakesAll (O.state out.old) (O.state out.new) (codes " " ++ digits.now) result }
{
    put_all(out, b" ")?;
    put_all(out, digits)
}

// Writes a number after a space, if there is one.
fn put_number<O: Sink>(out: &mut O, number: Option<u64>) -> Result<(), Failed>
    ensures { TakesAll (O.state out.old) (O.state out.new) (number_text number) result }
{
    match number {
        Some(number) => put_spaced(out, itoa::Buffer::new().format(number).as_bytes()),
        None => Ok(()),
    }
}

// Writes what is before the number.
fn put_front<O: Sink>(out: &mut O, line: &FaultLine) -> Result<(), Failed>
    ensures { TakesAll (O.state out.old) (O.state out.new) (front_bytes line.now) result }
{
    put_all(out, line.lead)?;
    put_all(out, line.front)
}

/// Writes a line. After an error a prefix of it was written.
pub(crate) fn put_line<O: Sink>(out: &mut O, line: &FaultLine) -> Result<(), Failed>
    ensures { TakesAll (O.state out.old) (O.state out.new) (line_bytes line.now) result }
{
    put_front(out, line)?;
    put_number(out, line.number)?;
    put_all(out, line.back)
}

// Adds a number after a space, if there is one.
fn add_number(text: &mut Vec<u8>, number: Option<u64>) -> Result<(), NoMemory>
    ensures { OnOk result (text.new.items ≡ text.old.items ++ number_text number) }
{
    if let Some(number) = number {
        text.push(b' ')?;
        text.extend_from_slice(itoa::Buffer::new().format(number).as_bytes())?;
    }
    Ok(())
}

/// Adds a line to a text.
pub(crate) fn add_line(text: &mut Vec<u8>, line: &FaultLine) -> Result<(), NoMemory>
    ensures { OnOk result (text.new.items ≡ text.old.items ++ line_bytes line.now) }
{
    text.extend_from_slice(line.lead)?;
    text.extend_from_slice(line.front)?;
    add_number(text, line.number)?;
    text.extend_from_slice(line.back)?;
    Ok(())
}
