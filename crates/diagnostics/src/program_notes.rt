//! Lines on the error output about paths without a program.
use command_status::Status;
use command_words::{Form, Resolve};
use lib_types::{NoMemory, Text};
use standard_streams::{Streams, printable_bytes, write_text};
use std::alloc::Global;
use std::io;
use std::rt::Runtime;

const NO_PROGRAM: &str = "it leads to no file of the image, links in it followed";

const BAD_PROGRAM: &str =
    "not a program or library: the line on the output says why, docs/FORMATS.md explains it";

// Of several paths the output names the one.
const OF_SEVERAL: &str =
    "ldconfig: the output names each path without a program, docs/FORMATS.md explains its line\n";

/// The path whose libraries are listed, if they are those of one path alone.
pub fn only_path(alloc: Global, asked: &Resolve) -> Result<Option<Text>, NoMemory> {
    let Some(paths) = &asked.paths else {
        return Ok(None);
    };
    match (asked.form, paths.as_slice()) {
        (Form::Listing | Form::Json | Form::Tree, [path]) => Ok(Some(path.copy(alloc)?)),
        _ => Ok(None),
    }
}

/// Says why a path has no program, after a command that ends so. `only` is the path, if one alone was asked for.
pub fn note_program<R: Runtime + Streams>(
    rt: &R,
    status: Status,
    only: Option<&Text>,
) -> io::Result<()> {
    let Some(path) = only else {
        return write_text(rt, OF_SEVERAL);
    };
    let reason = match status {
        Status::NoProgram => NO_PROGRAM,
        _ => BAD_PROGRAM,
    };
    let shown = printable_bytes(rt, path.as_bytes())?;
    let line = format!(in rt.alloc(); "ldconfig: {shown}: {reason}\n")?;
    write_text(rt, line.as_str())
}
