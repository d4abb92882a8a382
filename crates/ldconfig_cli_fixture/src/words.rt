//! A run of given arguments.
use command_runs::Status;
use command_runs_fixture::Devices;
use ldconfig_cli::run;
use lib_types::NoMemory;
use std::alloc::Global;
use std::str::from_utf8;
use table_rows::divide;

// The arguments as strings.
fn strings(alloc: Global, texts: &[&str]) -> Result<Vec<String>, NoMemory> {
    let mut found = Vec::new(alloc);
    for text in texts {
        found.push(String::from_str(alloc, text)?)?;
    }
    Ok(found)
}

/// Runs the command of these arguments.
pub fn run_words(alloc: Global, texts: &[&str], devices: &mut Devices) -> Result<Status, NoMemory> {
    let words = strings(alloc, texts)?;
    Ok(run(
        alloc,
        &words,
        &mut devices.store,
        &mut devices.disk,
        &mut devices.input,
        &mut devices.out,
    ))
}

// A command and its arguments, separated by blanks.
fn words_in<'a>(alloc: Global, command: &'a str, line: &'a [u8]) -> Result<Vec<&'a str>, NoMemory> {
    let mut words = Vec::new(alloc);
    words.push(command)?;
    let mut rest = line;
    for _ in 0..line.len() {
        let (word, after) = divide(b' ', rest);
        if !word.is_empty() {
            words.push(from_utf8(word).unwrap_or(""))?;
        }
        rest = after;
    }
    Ok(words)
}

/// Runs a command with the arguments of a line, separated by blanks.
pub fn run_line(
    alloc: Global,
    command: &str,
    line: &[u8],
    devices: &mut Devices,
) -> Result<Status, NoMemory> {
    run_words(alloc, &words_in(alloc, command, line)?, devices)
}
