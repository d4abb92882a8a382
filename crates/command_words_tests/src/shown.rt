//! A command as text: its name, and a line for each of its values.
use command_words::{Command, CommandLine, Form, Lookup, Resolve, Verb, WordsFault};
use lib_types::{NoMemory, Texts};
use std::alloc::Global;
use tree_face::Tag;

fn put_line(text: &mut Vec<u8>, front: &[u8], value: &[u8]) -> Result<(), NoMemory> {
    text.extend_from_slice(front)?;
    text.extend_from_slice(value)?;
    text.push(b'\n')?;
    Ok(())
}

fn put_number(
    alloc: Global,
    text: &mut Vec<u8>,
    front: &[u8],
    number: i32,
) -> Result<(), NoMemory> {
    let digits = format!(in alloc; "{number}")?;
    put_line(text, front, digits.as_bytes())
}

fn put_tag(alloc: Global, text: &mut Vec<u8>, tag: &Tag) -> Result<(), NoMemory> {
    put_number(alloc, text, b"tag=", i32::from(tag.0))
}

fn put_caps(text: &mut Vec<u8>, caps: &Texts) -> Result<(), NoMemory> {
    for cap in caps.as_slice() {
        put_line(text, b"cap=", cap.as_bytes())?;
    }
    Ok(())
}

fn put_paths(text: &mut Vec<u8>, paths: &Texts) -> Result<(), NoMemory> {
    for path in paths.as_slice() {
        put_line(text, b"path=", path.as_bytes())?;
    }
    Ok(())
}

fn put_json(text: &mut Vec<u8>, json: bool) -> Result<(), NoMemory> {
    if json {
        put_line(text, b"json", b"")?;
    }
    Ok(())
}

fn put_keys(text: &mut Vec<u8>, keys: &Texts) -> Result<(), NoMemory> {
    for key in keys.as_slice() {
        put_line(text, b"key=", key.as_bytes())?;
    }
    Ok(())
}

// An ABI is shown by its flags in a cache.
fn put_lookup(alloc: Global, text: &mut Vec<u8>, lookup: &Lookup) -> Result<(), NoMemory> {
    put_line(text, b"name=", lookup.name.as_bytes())?;
    if let Some(abi) = lookup.abi {
        put_number(alloc, text, b"flags=", abi.flags())?;
    }
    put_caps(text, &lookup.caps)?;
    put_json(text, lookup.json)
}

// The byte that ends a path of a list is shown by its name.
fn put_form(text: &mut Vec<u8>, form: Form) -> Result<(), NoMemory> {
    match form {
        Form::Listing => Ok(()),
        Form::Json => put_json(text, true),
        Form::Tree => put_line(text, b"tree", b""),
        Form::Files { end: b'\n' } => put_line(text, b"list", b" newline"),
        Form::Files { end: 0 } => put_line(text, b"list", b" NUL"),
        Form::Files { .. } => put_line(text, b"list", b" other"),
    }
}

fn put_resolve(text: &mut Vec<u8>, resolve: &Resolve) -> Result<(), NoMemory> {
    match &resolve.paths {
        Some(paths) => put_paths(text, paths)?,
        None => put_line(text, b"all", b"")?,
    }
    put_caps(text, &resolve.caps)?;
    put_line(text, b"library_path=", resolve.library_path.as_bytes())?;
    put_line(text, b"platform=", resolve.platform.as_bytes())?;
    if resolve.secure {
        put_line(text, b"secure", b"")?;
    }
    put_form(text, resolve.form)
}

fn put_command(alloc: Global, text: &mut Vec<u8>, command: &Command) -> Result<(), NoMemory> {
    match command {
        Command::Update { tag } => {
            put_line(text, b"update", b"")?;
            put_tag(alloc, text, tag)
        }
        Command::Batch { tag } => {
            put_line(text, b"batch", b"")?;
            put_tag(alloc, text, tag)
        }
        Command::Layers { keys } => {
            put_line(text, b"layers", b"")?;
            put_keys(text, keys)
        }
        Command::Sample { n } => {
            put_line(text, b"sample", b"")?;
            put_number(alloc, text, b"n=", i32::from(*n))
        }
        Command::Print { json } => {
            put_line(text, b"print", b"")?;
            put_json(text, *json)
        }
        Command::Lookup(lookup) => {
            put_line(text, b"lookup", b"")?;
            put_lookup(alloc, text, lookup)
        }
        Command::Resolve(resolve) => {
            put_line(text, b"resolve", b"")?;
            put_resolve(text, resolve)
        }
    }
}

fn put_line_of(alloc: Global, text: &mut Vec<u8>, line: &CommandLine) -> Result<(), NoMemory> {
    put_command(alloc, text, &line.command)?;
    if let Some(root) = &line.root {
        put_line(text, b"root=", root.as_bytes())?;
    }
    Ok(())
}

fn name_of(verb: Verb) -> &'static [u8] {
    match verb {
        Verb::Update => b"update",
        Verb::Batch => b"batch",
        Verb::Layers => b"layers",
        Verb::Sample => b"sample",
        Verb::Print => b"print",
        Verb::Lookup => b"lookup",
        Verb::Resolve => b"resolve",
    }
}

/// The command whose usage is asked for, or `none`.
pub(crate) fn shown_help(alloc: Global, help: Option<Verb>) -> Result<Vec<u8>, NoMemory> {
    let mut text = Vec::new(alloc);
    match help {
        Some(verb) => put_line(&mut text, name_of(verb), b"")?,
        None => put_line(&mut text, b"none", b"")?,
    }
    Ok(text)
}

/// The text of a command and the directory that it reads, or of the fault.
pub(crate) fn shown(
    alloc: Global,
    line: Result<CommandLine, WordsFault>,
) -> Result<Vec<u8>, NoMemory> {
    let mut text = Vec::new(alloc);
    match &line {
        Ok(line) => put_line_of(alloc, &mut text, line)?,
        Err(WordsFault::NoMemory) => put_line(&mut text, b"NoMemory", b"")?,
        Err(_) => put_line(&mut text, b"Usage", b"")?,
    }
    Ok(text)
}
