//! A root command as text: its name, and a line for each of its values.
use lib_types::{NoMemory, Text, Texts};
use root_words::{Rejection, RootCommand, RootOptions, RootWordsFault};
use std::alloc::Global;

fn put_line(text: &mut Vec<u8>, front: &[u8], value: &[u8]) -> Result<(), NoMemory> {
    text.extend_from_slice(front)?;
    text.extend_from_slice(value)?;
    text.push(b'\n')?;
    Ok(())
}

fn put_flag(text: &mut Vec<u8>, name: &[u8], is_given: bool) -> Result<(), NoMemory> {
    if is_given {
        put_line(text, name, b"")?;
    }
    Ok(())
}

fn put_value(text: &mut Vec<u8>, front: &[u8], value: &Option<Text>) -> Result<(), NoMemory> {
    if let Some(value) = value {
        put_line(text, front, value.as_bytes())?;
    }
    Ok(())
}

fn put_dirs(text: &mut Vec<u8>, dirs: &Option<Texts>) -> Result<(), NoMemory> {
    if let Some(dirs) = dirs {
        for dir in dirs.as_slice() {
            put_line(text, b"dir=", dir.as_bytes())?;
        }
    }
    Ok(())
}

fn put_options(text: &mut Vec<u8>, options: &RootOptions) -> Result<(), NoMemory> {
    put_value(text, b"root=", &options.root)?;
    put_flag(text, b"no cache", options.no_cache)?;
    put_flag(text, b"no links", options.no_links)?;
    put_value(text, b"conf=", &options.conf)?;
    put_value(text, b"cache=", &options.cache)?;
    put_dirs(text, &options.dirs)?;
    put_flag(text, b"verbose", options.verbose)?;
    put_value(text, b"aux=", &options.aux)?;
    put_flag(text, b"ignore aux", options.ignore_aux)?;
    put_flag(text, b"check", options.check)
}

fn put_command(text: &mut Vec<u8>, command: &RootCommand) -> Result<(), NoMemory> {
    match command {
        RootCommand::Help => put_line(text, b"help", b""),
        RootCommand::Version => put_line(text, b"version", b""),
        RootCommand::Print { root, cache } => {
            put_line(text, b"print", b"")?;
            put_value(text, b"root=", root)?;
            put_value(text, b"cache=", cache)
        }
        RootCommand::Run(options) => {
            put_line(text, b"run", b"")?;
            put_options(text, options)
        }
    }
}

// The line that names the argument, with what to use in its place.
fn put_rejection(text: &mut Vec<u8>, rejection: &Rejection) -> Result<(), NoMemory> {
    put_line(text, b"rejected ", rejection.argument.as_bytes())?;
    put_line(text, b"  ", rejection.why.advice().as_bytes())
}

/// The text of a command, or of the fault.
pub(crate) fn shown(
    alloc: Global,
    command: Result<RootCommand, RootWordsFault>,
) -> Result<Vec<u8>, NoMemory> {
    let mut text = Vec::new(alloc);
    match command {
        Ok(command) => put_command(&mut text, &command)?,
        Err(RootWordsFault::Refused(line)) => put_line(&mut text, b"refused ", line.as_bytes())?,
        Err(RootWordsFault::Rejected(rejection)) => put_rejection(&mut text, &rejection)?,
        Err(RootWordsFault::NoMemory) => put_line(&mut text, b"NoMemory", b"")?,
    }
    Ok(text)
}
