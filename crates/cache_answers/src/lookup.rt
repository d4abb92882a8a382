//! The command `lookup`: in a directory, and what is said of a name that isn't found.
use crate::print::note_asked;
use asking_runs::{looked_up_abi, run_lookup};
use cache_lookup::{Sorted, sorted_cache};
use command_status::Status;
use command_words::{Command, Lookup};
use device_rules::{RunId, SlotPaths};
use diagnostics::StartFault;
use image_folder::HeldFile;
use lib_types::{ABIS, Abi, NoMemory, Text};
use standard_streams::{ErrorLines, Streams, printable, printable_bytes};
use std::alloc::Global;
use std::io;
use std::rt::Runtime;
use std::str::from_utf8;
use tree_real::{FolderDisk, StdoutSink};

/// A name that is looked up, and its ABI if one is given.
#[derive(Drop)]
pub struct Sought {
    name: Text,
    abi: Option<Abi>,
}

impl Sought {
    /// The name of a command, if it looks one up.
    pub fn of(alloc: Global, command: Option<&Command>) -> Result<Option<Sought>, NoMemory> {
        match command {
            Some(Command::Lookup(asked)) => Ok(Some(Sought::in_words(alloc, asked)?)),
            _ => Ok(None),
        }
    }

    fn in_words(alloc: Global, asked: &Lookup) -> Result<Sought, NoMemory> {
        Ok(Sought {
            name: Text::copy_of(alloc, asked.name.as_bytes())?,
            abi: asked.abi,
        })
    }
}

/// Runs the command on the directory `root`, and returns its exit status.
pub fn look_up<R: Runtime + AllocGlobal + Streams>(
    rt: &R,
    id: RunId,
    root: &str,
    asked: &Lookup,
) -> Result<u8, StartFault>
where
    R::File: HeldFile,
{
    let sought = Sought::in_words(rt.alloc(), asked)?;
    let mut disk = FolderDisk::new(rt.clone()?, root, id, SlotPaths::usual(), None)?;
    let mut output = StdoutSink::new(rt.clone()?);
    let status = run_lookup(rt.alloc(), asked, &mut disk, &mut output);
    let _ = if status == Status::Missing {
        note_other_abis(rt, Some(root), &mut disk, &sought)
    } else {
        note_asked(rt, Some(root), disk.cache_file(), status)
    };
    Ok(status.code())
}

/// Says for which other ABIs the cache has a name that wasn't found. The cache is read again.
pub fn note_other_abis<R: Runtime + AllocGlobal + Streams>(
    rt: &R,
    root: Option<&str>,
    disk: &mut FolderDisk<R>,
    sought: &Sought,
) -> io::Result<()>
where
    R::File: HeldFile,
{
    let Some(bytes) = disk.cache_bytes(rt.alloc())? else {
        return Ok(());
    };
    let Ok(cache) = sorted_cache(&bytes) else {
        return Ok(());
    };
    let file = match root {
        Some(root) => {
            let root = printable(rt, root.trim_end_matches('/'))?;
            let path = disk.cache_file();
            format!(in rt.alloc(); "{root}/{path}")?
        }
        None => String::from_str(rt.alloc(), disk.cache_file())?,
    };
    add_abis(rt, file.as_str(), &cache, sought)
}

fn add_abis<R: Runtime + Streams>(
    rt: &R,
    file: &str,
    cache: &Sorted<'_>,
    sought: &Sought,
) -> io::Result<()> {
    let used = looked_up_abi(sought.abi, cache);
    let name = printable_bytes(rt, sought.name.as_bytes())?;
    let mut lines = ErrorLines::new(rt);
    for abi in ABIS {
        if abi != used && cache.has_candidate(sought.name.as_bytes(), abi) {
            let word = from_utf8(abi.row().word).unwrap_or("");
            let line = format!(in rt.alloc();
                "ldconfig: {file}: it has {name} for {word}: use --abi {word}\n"
            )?;
            lines.add(line.as_str())?;
        }
    }
    lines.write()
}
