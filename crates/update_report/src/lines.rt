//! Single lines of a report.
ghost use Rattle.std.specs.Prelude.{◌≡◌, ◌++◌, OnOk, option_map};
ghost use Rattle.image_tree.specs.Paths.{join};
ghost use Rattle.lib_types.specs.Defects.{number_text};
ghost use Rattle.update_report.specs.Lines.{absent_line, blocked_line, conf_line, conf_name, damaged_line, dangling_line, last_line, link_line, mixed_line, skip_line, spelled_at, twin_line};
ghost use Rattle.update_report.specs.Twins.{twin_after};

use crate::kinds::Skipped;
use hwcap_dirs::Places;
use ldso_conf::{ConfKind, ConfReport};
use lib_types::{NoMemory, Text};
use link_plan::{Mark, Planned};
use name_order::compare_tokens;
use std::alloc::Global;
use std::cmp::Ordering;

// ---- the auxiliary cache

/// Adds the line for a corrupt auxiliary cache, with the offset, if it was corrupt.
pub(crate) fn put_damaged_line(
    alloc: Global,
    out: &mut Vec<u8>,
    damaged: Option<u64>,
) -> Result<(), NoMemory>
    ensures { OnOk result (out.new.items ≡ out.old.items ++ damaged_line damaged) }
{
    if let Some(at) = damaged {
        let line = format!(in alloc; "aux: Damaged {at}\n")?;
        out.extend_from_slice(line.as_bytes())?;
    }
    Ok(())
}

// ---- the conf file

fn conf_name(kind: ConfKind) -> &'static [u8]
    ensures { result.now ≡ conf_name kind }
{
    match kind {
        ConfKind::NotFile => b"NotFile",
        ConfKind::Repeated => b"Repeated",
        ConfKind::TooDeep => b"TooDeep",
        ConfKind::TooLarge => b"TooLarge",
        ConfKind::Relative => b"Relative",
        ConfKind::Equals => b"Equals",
        ConfKind::Hwcap => b"Hwcap",
        ConfKind::LongPath => b"LongPath",
    }
}

/// Adds the line for a conf file's entry that can't be used.
pub(crate) fn put_conf_line(out: &mut Vec<u8>, report: &ConfReport) -> Result<(), NoMemory>
    ensures { OnOk result (out.new.items ≡ out.old.items ++ conf_line report.now) }
{
    out.extend_from_slice(b"conf: ")?;
    out.extend_from_slice(report.place.as_bytes())?;
    out.extend_from_slice(b": ")?;
    out.extend_from_slice(conf_name(report.kind))?;
    out.push(b'\n')?;
    Ok(())
}

/// Adds the line for a conf file's directory that doesn't exist.
pub(crate) fn put_absent_line(out: &mut Vec<u8>, dir: &Text) -> Result<(), NoMemory>
    ensures { OnOk result (out.new.items ≡ out.old.items ++ absent_line dir.now) }
{
    out.extend_from_slice(b"conf: ")?;
    out.extend_from_slice(dir.as_bytes())?;
    out.extend_from_slice(b": Absent\n")?;
    Ok(())
}

// ---- sonames in search directories

// The path of a search directory, before links are resolved.
fn spelled_at(places: &Places, number: u32) -> &[u8]
    ensures { result.now ≡ spelled_at places.now number }
{
    match places.get(number as usize) {
        Some(place) => place.spelled.as_bytes(),
        None => b"",
    }
}

// Adds the path of a name in a directory.
fn put_joined(out: &mut Vec<u8>, folder: &[u8], name: &[u8]) -> Result<(), NoMemory>
    ensures { OnOk result (out.new.items ≡ out.old.items ++ join folder.now name.now) }
{
    if folder != b"/".as_slice() {
        out.extend_from_slice(folder)?;
    }
    out.push(b'/')?;
    out.extend_from_slice(name)?;
    Ok(())
}

/// Adds the line for a planned link.
pub(crate) fn put_link_line(
    out: &mut Vec<u8>,
    places: &Places,
    planned: &Planned,
) -> Result<(), NoMemory>
    ensures { OnOk result (out.new.items ≡ out.old.items ++ link_line places.now planned.now) }
{
    out.extend_from_slice(b"link: ")?;
    let folder = spelled_at(places, planned.place);
    put_joined(out, folder, planned.soname.as_bytes())?;
    out.extend_from_slice(b" -> ")?;
    out.extend_from_slice(planned.file.as_bytes())?;
    out.push(b'\n')?;
    Ok(())
}

/// Adds the line for a soname whose link can't be created.
pub(crate) fn put_blocked_line(
    out: &mut Vec<u8>,
    places: &Places,
    mark: &Mark,
) -> Result<(), NoMemory>
    ensures { OnOk result (out.new.items ≡ out.old.items ++ blocked_line places.now mark.now) }
{
    out.extend_from_slice(b"blocked: ")?;
    let folder = spelled_at(places, mark.place);
    put_joined(out, folder, mark.soname.as_bytes())?;
    out.push(b'\n')?;
    Ok(())
}

/// Adds the line for a soname that has different ABIs in one search directory.
pub(crate) fn put_mixed_line(
    out: &mut Vec<u8>,
    places: &Places,
    mark: &Mark,
) -> Result<(), NoMemory>
    ensures { OnOk result (out.new.items ≡ out.old.items ++ mixed_line places.now mark.now) }
{
    out.extend_from_slice(b"mixed: ")?;
    out.extend_from_slice(spelled_at(places, mark.place))?;
    out.push(b' ')?;
    out.extend_from_slice(mark.soname.as_bytes())?;
    out.push(b'\n')?;
    Ok(())
}

// ---- files and links

// Adds the number that belongs to a defect, if there is one.
fn put_number(alloc: Global, out: &mut Vec<u8>, number: Option<u64>) -> Result<(), NoMemory>
    ensures { OnOk result (out.new.items ≡ out.old.items ++ number_text number) }
{
    if let Some(number) = number {
        let text = format!(in alloc; " {number}")?;
        out.extend_from_slice(text.as_bytes())?;
    }
    Ok(())
}

/// Adds the line for a file that isn't a usable shared library.
pub(crate) fn put_skip_line(
    alloc: Global,
    out: &mut Vec<u8>,
    skipped: &Skipped,
) -> Result<(), NoMemory>
    ensures { OnOk result (out.new.items ≡ out.old.items ++ skip_line skipped.now) }
{
    out.extend_from_slice(b"skip: ")?;
    out.extend_from_slice(skipped.path.as_bytes())?;
    out.extend_from_slice(b": ")?;
    out.extend_from_slice(skipped.defect.name())?;
    put_number(alloc, out, skipped.defect.number())?;
    out.push(b'\n')?;
    Ok(())
}

/// Adds the line for a dangling link.
pub(crate) fn put_dangling_line(out: &mut Vec<u8>, path: &Text) -> Result<(), NoMemory>
    ensures { OnOk result (out.new.items ≡ out.old.items ++ dangling_line path.now) }
{
    out.extend_from_slice(b"dangling: ")?;
    out.extend_from_slice(path.as_bytes())?;
    out.push(b'\n')?;
    Ok(())
}

// ---- entries

// Adds the line for two sonames that the loader can't tell apart.
fn put_twin_line(out: &mut Vec<u8>, before: &[u8], soname: &[u8]) -> Result<(), NoMemory>
    ensures { OnOk result (out.new.items ≡ out.old.items ++ twin_line before.now soname.now) }
{
    out.extend_from_slice(b"twin: ")?;
    out.extend_from_slice(before)?;
    out.push(b' ')?;
    out.extend_from_slice(soname)?;
    out.push(b'\n')?;
    Ok(())
}

/// Adds the line for an entry's soname and its predecessor, if they compare equal.
pub(crate) fn put_twin(
    out: &mut Vec<u8>,
    before: Option<&[u8]>,
    soname: &[u8],
) -> Result<(), NoMemory>
    ensures { OnOk result (out.new.items ≡ out.old.items ++ twin_after (option_map (λ name. name.now) before.entry) soname.now) }
{
    match before {
        Some(before) => {
            if before != soname && compare_tokens(before, soname) == Ordering::Equal {
                return put_twin_line(out, before, soname);
            }
            Ok(())
        }
        None => Ok(()),
    }
}

/// Adds the last line, with the numbers.
pub(crate) fn put_last_line(
    alloc: Global,
    out: &mut Vec<u8>,
    entries: usize,
    links: usize,
    opened: usize,
) -> Result<(), NoMemory>
    ensures { OnOk result (out.new.items ≡ out.old.items ++ last_line entries links opened) }
{
    let line = format!(in alloc; "{entries} libs, {links} links, {opened} files opened\n")?;
    out.extend_from_slice(line.as_bytes())?;
    Ok(())
}
