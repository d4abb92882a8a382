//! The auxiliary cache of `--aux-cache FILE`, a path on this machine.
use crate::paths::{directory_of, real_path};
use aux_cache::{MAGIC_START, MAGIC_START_SIZE};
use device_rules::{Identity, RunId, divided};
use diagnostics::StartFault;
use image_folder::{HeldFile, open_file, read_whole};
use root_update::AuxUse;
use slot_files::SlotFiles;
use standard_streams::{Streams, printable, write_text};
use std::alloc::{AllocError, Global};
use std::io;
use std::rt::Runtime;

/// The files of an image that the auxiliary cache must not replace.
#[derive(Clone, Copy)]
pub struct Kept<'r, 'c, 'f> {
    pub root: &'r str,
    /// The cache, below the root.
    pub cache: &'c str,
    /// The conf file, a path in the image.
    pub conf: &'f str,
}

/// The auxiliary cache of a run, if it has one: its path as given, and the file.
#[derive(Drop)]
pub struct Aux<'x> {
    pub path: Option<&'x str>,
    pub file: Option<AuxFile>,
}

impl<'x> Aux<'x> {
    /// The auxiliary cache at this path, if one is given. The result is None if the path doesn't end with a file name, or if its directory
    /// is missing. It is also None if it is the image's cache or conf file, or another file that is not an auxiliary cache, because
    /// replacing these would lose them. An update finds whether it is another file of the image, such as an included conf file.
    pub fn find<R: Runtime + AllocGlobal>(
        rt: &R,
        path: Option<&'x str>,
        kept: Kept<'_, '_, '_>,
    ) -> Result<Option<Aux<'x>>, StartFault>
    where
        R::File: HeldFile,
    {
        let Some(given) = path else {
            return Ok(Some(Aux { path, file: None }));
        };
        match AuxFile::find(rt, given, kept)? {
            Some(file) => Ok(Some(Aux {
                path,
                file: Some(file),
            })),
            None => Ok(None),
        }
    }

    /// The identity of its file, if that exists.
    pub fn identity(&self) -> Option<Identity> {
        match &self.file {
            Some(file) => file.identity,
            None => None,
        }
    }

    /// Its slot.
    pub fn slot<R: Runtime + AllocGlobal>(
        &self,
        rt: &R,
        id: RunId,
    ) -> Result<Option<SlotFiles<R>>, StartFault> {
        match &self.file {
            Some(file) => Ok(Some(file.slot(rt, id)?)),
            None => Ok(None),
        }
    }

    /// What an update does with it. It isn't read if `is_ignored`.
    pub fn usage(&self, is_ignored: bool) -> AuxUse {
        match (&self.file, is_ignored) {
            (None, _) => AuxUse::Unused,
            (Some(_), false) => AuxUse::Updated,
            (Some(_), true) => AuxUse::Replaced,
        }
    }
}

/// A file of this machine, with symbolic links resolved.
#[derive(Drop)]
pub struct AuxFile {
    directory: String,
    name: String,
    identity: Option<Identity>,
}

impl AuxFile {
    // The file of this path, unless it can't be an auxiliary cache.
    fn find<R: Runtime + AllocGlobal>(
        rt: &R,
        file: &str,
        kept: Kept<'_, '_, '_>,
    ) -> Result<Option<AuxFile>, StartFault>
    where
        R::File: HeldFile,
    {
        let Some(real) = real_path(rt, file)? else {
            return Ok(None);
        };
        let real = real.as_str();
        let (directory, name) = divided(real);
        let is_name = !name.is_empty() && name != "." && name != "..";
        if !is_name || is_kept(rt, real, kept)? {
            return Ok(None);
        }
        match file_at(rt, real) {
            Existing::Other => Ok(None),
            Existing::Replaceable(identity) => {
                let directory = directory_of(real, directory);
                Ok(Some(AuxFile::at(rt.alloc(), directory, name, identity)?))
            }
        }
    }

    fn at(
        alloc: Global,
        directory: &str,
        name: &str,
        identity: Option<Identity>,
    ) -> Result<AuxFile, AllocError> {
        let directory = String::from_str(alloc, directory)?;
        let name = String::from_str(alloc, name)?;
        Ok(AuxFile {
            directory,
            name,
            identity,
        })
    }

    fn slot<R: Runtime + AllocGlobal>(
        &self,
        rt: &R,
        id: RunId,
    ) -> Result<SlotFiles<R>, StartFault> {
        let name = String::from_str(rt.alloc(), self.name.as_str())?;
        Ok(SlotFiles::of_aux(rt.clone()?, self.directory.as_str(), id, name)?)
    }
}

// Whether the path is the image's cache or conf file.
fn is_kept<R: Runtime>(rt: &R, real: &str, kept: Kept<'_, '_, '_>) -> Result<bool, AllocError> {
    Ok(is_in(rt, real, kept.root, kept.cache)? || is_in(rt, real, kept.root, kept.conf)?)
}

fn is_in<R: Runtime>(rt: &R, real: &str, root: &str, file: &str) -> Result<bool, AllocError> {
    let path = format!(in rt.alloc(); "{root}/{file}")?;
    match real_path(rt, path.as_str())? {
        Some(other) => Ok(other.as_str() == real),
        None => Ok(false),
    }
}

// What is at the path of an auxiliary cache.
enum Existing {
    // Nothing is lost if it is replaced: it is an auxiliary cache, or empty, or can't be read. If it can't be read, its identity is unknown, and
    // the update says why.
    Replaceable(Option<Identity>),
    // A file of another use.
    Other,
}

fn file_at<R: Runtime>(rt: &R, path: &str) -> Existing
where
    R::File: HeldFile,
{
    let Ok((mut file, stamp)) = open_file(rt, path) else {
        return Existing::Replaceable(None);
    };
    let mut head = [0u8; MAGIC_START_SIZE];
    if stamp.size == 0
        || (read_whole(&mut file, &mut head).is_ok() && head.as_slice() == MAGIC_START)
    {
        Existing::Replaceable(Some(stamp.identity()))
    } else {
        Existing::Other
    }
}

/// Says that a file can't be the auxiliary cache.
pub fn note_no_aux<R: Runtime + Streams>(rt: &R, file: Option<&str>) -> io::Result<()> {
    let file = printable(rt, file.unwrap_or(""))?;
    let line = format!(in rt.alloc();
        "ldconfig: --aux-cache {file}: use an auxiliary cache, or a new file in a directory that is there\n"
    )?;
    write_text(rt, line.as_str())
}
