//! The part of a search that gives a path.
ghost use Rattle.std.specs.Prelude.{◌≡◌, ◌<◌, flat_map, length, option_and_then, option_to_list, IfOk};
ghost use Rattle.std.specs.Option.{option_copied};
ghost use Rattle.rpath_search.specs.Candidates.{IsInside, dirs_left};
ghost use Rattle.rpath_search.specs.Loaders.{reach_at};
ghost use Rattle.rpath_search.specs.Parts.{AreParts, part_by, part_of, rpaths_of, runpath_of};
ghost use Rattle.rpath_search.specs.Places.{cached_path, paths_in};
ghost use Rattle.rpath_search.specs.Searching.{is_among};

use crate::candidates::{At, FirstDirs, next_at, split_first, tried};
use crate::kinds::Env;
use crate::loaders::Loaders;
use lib_types::{NoMemory, has_byte};
use std::alloc::Global;

/// A part of a search for a library.
#[derive(Clone, Copy, Debug, PartialEq, Eq)]
pub enum Part {
    /// The name has a slash, so it is itself the path.
    Name,
    /// DT_RPATH of the object or of a loader.
    Rpath,
    /// `LD_LIBRARY_PATH`.
    LibraryPath,
    /// DT_RUNPATH of the object.
    Runpath,
    Cache,
    /// The default directories.
    Default,
}

/// A name that is searched for.
#[derive(Clone, Copy)]
pub struct Wanted<'a> {
    pub name: &'a [u8],
    pub env: &'a Env,
    /// The path of the name in the cache, if there is one.
    pub cached: Option<&'a [u8]>,
}

// Whether this is one of the paths of a name in a directory.
fn is_in_dir(alloc: Global, wanted: &Wanted<'_>, dir: &[u8], path: &[u8]) -> Result<bool, NoMemory>
    ensures { IfOk result (λ is. is ≡ is_among (paths_in wanted.now.name.now wanted.now.env.now.caps dir.now) path.now) }
{
    let mut left = Some(At {
        dir,
        caps: wanted.env.caps.as_slice(),
    });
    while let Some(at) = left {
        let (next, rest) = next_at(alloc, wanted.name, at)?;
        if path == next.as_bytes() {
            return Ok(true);
        }
        left = rest;
    }
    Ok(false)
}

// Whether this is one of the paths of a name in these directories.
fn is_in_dirs(
    alloc: Global,
    wanted: &Wanted<'_>,
    dirs: FirstDirs<'_>,
    path: &[u8],
) -> Result<bool, NoMemory>
    requires { IsInside dirs }
    ensures { IfOk result (λ is. is ≡ is_among (flat_map (paths_in wanted.now.name.now wanted.now.env.now.caps) (dirs_left dirs.entry)) path.now) }
{
    let mut left = dirs;
    while let Some((dir, rest)) = split_first(left) {
        if is_in_dir(alloc, wanted, dir.as_bytes(), path)? {
            return Ok(true);
        }
        left = rest;
    }
    Ok(false)
}

// Whether this is the path of the cache, for an object that has DF_1_NODEFLIB or not.
fn is_cached(cached: Option<&[u8]>, nodeflib: bool, path: &[u8]) -> bool
    ensures { result ≡ is_among (option_to_list (option_and_then (cached_path nodeflib) (option_copied cached.entry))) path.now }
{
    match tried(cached, nodeflib) {
        Some(cached) => path == cached,
        None => false,
    }
}

// The DT_RPATH directories of the object with this number and of its loaders.
fn rpaths_of<'a>(loaders: &'a Loaders, number: usize) -> FirstDirs<'a>
    requires { number < length loaders.now }
    ensures left { dirs_left result ≡ rpaths_of (reach_at loaders.now number) }
    ensures inside { IsInside result }
{
    match &loaders.link(number).dirs.runpath {
        Some(_) => FirstDirs::none(loaders),
        None => FirstDirs::of_rpaths(loaders, number),
    }
}

// The DT_RUNPATH directories of the object with this number.
fn runpath_of<'a>(loaders: &'a Loaders, number: usize) -> FirstDirs<'a>
    requires { number < length loaders.now }
    ensures left { dirs_left result ≡ runpath_of (reach_at loaders.now number) }
    ensures inside { IsInside result }
{
    match &loaders.link(number).dirs.runpath {
        Some(runpath) => FirstDirs::of_list(loaders, runpath.as_slice()),
        None => FirstDirs::none(loaders),
    }
}

// The part of the search for a name without a slash.
fn part_by(
    alloc: Global,
    loaders: &Loaders,
    number: usize,
    wanted: &Wanted<'_>,
    path: &[u8],
) -> Result<Part, NoMemory>
    requires { number < length loaders.now }
    ensures { IfOk result (λ part. part ≡ part_by wanted.now.name.now wanted.now.env.now (reach_at loaders.now number) (option_copied wanted.now.cached) path.now) }
{
    if is_in_dirs(alloc, wanted, rpaths_of(loaders, number), path)? {
        return Ok(Part::Rpath);
    }
    let library = FirstDirs::of_list(loaders, loaders.library());
    if is_in_dirs(alloc, wanted, library, path)? {
        return Ok(Part::LibraryPath);
    }
    if is_in_dirs(alloc, wanted, runpath_of(loaders, number), path)? {
        return Ok(Part::Runpath);
    }
    let nodeflib = loaders.link(number).dirs.nodeflib;
    if is_cached(wanted.cached, nodeflib, path) {
        return Ok(Part::Cache);
    }
    Ok(Part::Default)
}

/// The part of the search that gives this path of a name that the object with this number needs.
#[tactic(auto, using(crate::proofs::InParts::are_parts))]
pub fn part_of(
    alloc: Global,
    loaders: &Loaders,
    number: usize,
    wanted: &Wanted<'_>,
    path: &[u8],
) -> Result<Part, NoMemory>
    requires { number < length loaders.now }
    ensures part { IfOk result (λ part. part ≡ part_of wanted.now.name.now wanted.now.env.now (reach_at loaders.now number) (option_copied wanted.now.cached) path.now) }
    ensures parts { AreParts wanted.now.name.now wanted.now.env.now (reach_at loaders.now number) (option_copied wanted.now.cached) }
{
    if has_byte(b'/', wanted.name) {
        return Ok(Part::Name);
    }
    part_by(alloc, loaders, number, wanted, path)
}
