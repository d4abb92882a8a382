//! One line of a listing.
ghost use Rattle.std.specs.Prelude.{◌≡◌, ◌++◌, OnOk};
ghost use Rattle.std.specs.Option.{option_copied};
ghost use Rattle.search_listing.specs.Lines.{cap_text, changed_text, library_line, origin_text, place_line, shown};

use hwcap_dirs::Place;
use ldso_conf::Origin;
use lib_types::{NoMemory, Text};
use place_libraries::Library;
use std::alloc::Global;

// Adds the name of a glibc-hwcaps subdirectory, if the search directory is one.
fn put_cap(out: &mut Vec<u8>, cap: &Option<Text>) -> Result<(), NoMemory>
    ensures { OnOk result (out.new.items ≡ out.old.items ++ cap_text cap.now) }
{
    if let Some(name) = cap {
        out.extend_from_slice(b" (hwcap: \"")?;
        out.extend_from_slice(name.as_bytes())?;
        out.extend_from_slice(b"\")")?;
    }
    Ok(())
}

// Adds the file and the line that name a search directory.
fn put_origin(alloc: Global, out: &mut Vec<u8>, origin: Option<&Origin>) -> Result<(), NoMemory>
    ensures { OnOk result (out.new.items ≡ out.old.items ++ origin_text (option_copied origin.entry)) }
{
    match origin {
        Some(origin) => {
            let line = origin.line;
            let number = format!(in alloc; ":{line}")?;
            out.extend_from_slice(origin.file.as_bytes())?;
            out.extend_from_slice(number.as_bytes())?;
        }
        None => out.extend_from_slice(b"<builtin>:0")?,
    }
    Ok(())
}

// Adds the path of a search directory.
fn put_dir(out: &mut Vec<u8>, front: &[u8], spelled: &[u8]) -> Result<(), NoMemory>
    ensures { OnOk result (out.new.items ≡ out.old.items ++ shown front.now spelled.now) }
{
    out.extend_from_slice(front)?;
    if front.is_empty() || spelled != b"/".as_slice() {
        out.extend_from_slice(spelled)?;
    }
    Ok(())
}

/// Adds the line of a search directory.
pub(crate) fn put_place_line(
    alloc: Global,
    out: &mut Vec<u8>,
    front: &[u8],
    place: &Place,
    origin: Option<&Origin>,
) -> Result<(), NoMemory>
    ensures { OnOk result (out.new.items ≡ out.old.items ++ place_line front.now place.now (option_copied origin.entry)) }
{
    put_dir(out, front, place.spelled.as_bytes())?;
    out.push(b':')?;
    put_cap(out, &place.cap)?;
    out.extend_from_slice(b" (from ")?;
    put_origin(alloc, out, origin)?;
    out.extend_from_slice(b")\n")?;
    Ok(())
}

// Adds the mark of a library whose link was made.
fn put_changed(out: &mut Vec<u8>, is_changed: bool) -> Result<(), NoMemory>
    ensures { OnOk result (out.new.items ≡ out.old.items ++ changed_text is_changed) }
{
    if is_changed {
        out.extend_from_slice(b" (changed)")?;
    }
    Ok(())
}

/// Adds the line of a library.
pub(crate) fn put_library_line(
    out: &mut Vec<u8>,
    library: &Library<'_>,
    is_changed: bool,
) -> Result<(), NoMemory>
    ensures { OnOk result (out.new.items ≡ out.old.items ++ library_line library.now is_changed) }
{
    out.push(b'\t')?;
    out.extend_from_slice(library.soname)?;
    out.extend_from_slice(b" -> ")?;
    out.extend_from_slice(library.name)?;
    put_changed(out, is_changed)?;
    out.push(b'\n')?;
    Ok(())
}
