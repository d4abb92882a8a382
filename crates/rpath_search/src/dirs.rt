//! The directories in DT_RPATH, DT_RUNPATH and the library path.
ghost use Rattle.std.specs.Prelude.{◌≡◌, IfOk};
ghost use Rattle.rpath_search.specs.Places.{directory, dirs_of, item_dir, library_dirs};
ghost use Rattle.rpath_search.specs.Loaders.{own_dirs};

use crate::kinds::{Env, Owner};
use crate::paths::from_root;
use lib_types::trim::without_end;
use lib_types::{NoMemory, Separator, Text, Texts, split};
use origin_expand::expand;
use std::alloc::Global;

/// The directories from an object's own DT_RPATH and DT_RUNPATH, with their tokens replaced.
#[derive(Drop)]
pub(crate) struct OwnDirs {
    /// From DT_RPATH; empty if there is a DT_RUNPATH.
    pub rpath: Texts,
    /// From DT_RUNPATH, if there is one.
    pub runpath: Option<Texts>,
    /// Whether the default directories are left out.
    pub nodeflib: bool,
}

fn directory(alloc: Global, text: &[u8]) -> Result<Text, NoMemory>
    ensures { IfOk result (λ dir. dir ≡ directory text.now) }
{
    let whole = from_root(alloc, text)?;
    Text::copy_of(alloc, without_end(b"/", whole.as_bytes()))
}

// The directory of an item after its tokens are replaced; secure execution drops an item with `$ORIGIN`.
fn item_dir(alloc: Global, env: &Env, origin: &[u8], item: &[u8]) -> Result<Option<Text>, NoMemory>
    ensures { IfOk result (λ dir. dir ≡ item_dir env.now origin.now item.now) }
{
    let lib = env.abi.lib();
    let platform = env.platform.as_bytes();
    let Some(text) = expand(alloc, item, origin, lib, platform, env.secure)? else {
        return Ok(None);
    };
    let dir = directory(alloc, text.as_bytes())?;
    Ok(Some(dir))
}

// The directories of the items in a text.
fn dirs_of(
    alloc: Global,
    env: &Env,
    separators: &[u8],
    origin: &[u8],
    text: &[u8],
) -> Result<Texts, NoMemory>
    ensures { IfOk result (λ dirs. dirs ≡ dirs_of env.now separators.now origin.now text.now) }
{
    let mut dirs = Texts::new(alloc);
    if text.is_empty() {
        return Ok(dirs);
    }
    for item in split(Separator::In(separators), text) {
        if let Some(dir) = item_dir(alloc, env, origin, item)? {
            dirs.push(dir)?;
        }
    }
    Ok(dirs)
}

/// The directories of the library path.
pub(crate) fn library_dirs(alloc: Global, env: &Env, program: &Owner) -> Result<Texts, NoMemory>
    ensures { IfOk result (λ dirs. dirs ≡ library_dirs env.now program.now) }
{
    if env.secure {
        return Ok(Texts::new(alloc));
    }
    let text = env.library_path.as_bytes();
    dirs_of(alloc, env, b":;", program.origin.as_bytes(), text)
}

/// The directories of an object.
pub(crate) fn own_dirs(alloc: Global, env: &Env, owner: &Owner) -> Result<OwnDirs, NoMemory>
    ensures { IfOk result (λ dirs. dirs ≡ own_dirs env.now owner.now) }
{
    let origin = owner.origin.as_bytes();
    let nodeflib = owner.nodeflib;
    if let Some(text) = &owner.runpath {
        let dirs = dirs_of(alloc, env, b":", origin, text.as_bytes())?;
        return Ok(OwnDirs {
            rpath: Texts::new(alloc),
            runpath: Some(dirs),
            nodeflib,
        });
    }
    let rpath = match &owner.rpath {
        Some(text) => dirs_of(alloc, env, b":", origin, text.as_bytes())?,
        None => Texts::new(alloc),
    };
    Ok(OwnDirs {
        rpath,
        runpath: None,
        nodeflib,
    })
}
