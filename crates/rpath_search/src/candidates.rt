//! The paths of a search, one after another.
ghost use Rattle.std.specs.Prelude.{◌≡◌, ◌<◌, ◌∷◌, [], ℕ, Some, drop, if◌then◌else◌, length, option_and_then, IfOk};
ghost use Rattle.std.specs.Option.{MatchOption, option_copied};
ghost use Rattle.rpath_search.specs.Candidates.{IsInside, IsNext, IsNextAt, IsRefilled, all_paths, defaults_left, dirs_left, paths_at, paths_left};
ghost use Rattle.rpath_search.specs.Loaders.{reach_at};
ghost use Rattle.rpath_search.specs.Places.{cached_path, first_dirs, is_default, paths_by, system_dirs_of};

use crate::kinds::{Env, SystemDirs};
use crate::loaders::Loaders;
use crate::paths::{from_root, hwcaps_path, plain_path};
use hwcap_dirs::{SYSTEM_DIRS, Scope, next_builtin_dir, next_system_dir};
use lib_types::{NoMemory, Text, has_byte};
use std::alloc::Global;
use tree_face::is_below;

/// The remaining directories before the cache: `list`, the DT_RPATH directories of the object `above` and its loaders, and two more lists.
#[derive(Clone, Copy)]
pub(crate) struct FirstDirs<'a> {
    list: &'a [Text],
    above: Option<usize>,
    loaders: &'a Loaders,
    second: &'a [Text],
    third: &'a [Text],
}

impl<'a> FirstDirs<'a> {
    /// No directories.
    pub(crate) fn none(loaders: &'a Loaders) -> FirstDirs<'a>
        ensures left { dirs_left result ≡ [] }
        ensures inside { IsInside result }
    {
        FirstDirs::of_list(loaders, &[])
    }

    /// The directories of a list.
    pub(crate) fn of_list(loaders: &'a Loaders, list: &'a [Text]) -> FirstDirs<'a>
        ensures left { dirs_left result ≡ list.entry.now }
        ensures inside { IsInside result }
    {
        FirstDirs {
            list,
            above: None,
            loaders,
            second: &[],
            third: &[],
        }
    }

    /// The directories of DT_RPATH of an object and of its loaders, whether or not the object has DT_RUNPATH.
    pub(crate) fn of_rpaths(loaders: &'a Loaders, number: usize) -> FirstDirs<'a>
        requires { number < length loaders.now }
        ensures left { dirs_left result ≡ (reach_at loaders.now number).rpaths }
        ensures inside { IsInside result }
    {
        let link = loaders.link(number);
        FirstDirs {
            list: link.dirs.rpath.as_slice(),
            above: link.above,
            loaders,
            second: &[],
            third: &[],
        }
    }

    // The directories of an object.
    fn of(loaders: &'a Loaders, number: usize) -> FirstDirs<'a>
        requires { number < length loaders.now }
        ensures left { dirs_left result ≡ first_dirs (reach_at loaders.now number) }
        ensures inside { IsInside result }
    {
        let link = loaders.link(number);
        let library = loaders.library();
        match &link.dirs.runpath {
            Some(runpath) => FirstDirs {
                list: library,
                above: None,
                loaders,
                second: runpath.as_slice(),
                third: &[],
            },
            None => FirstDirs {
                list: link.dirs.rpath.as_slice(),
                above: link.above,
                loaders,
                second: library,
                third: &[],
            },
        }
    }

    // Replaces the empty list by the next list, if there is one.
    fn refilled(self) -> Option<FirstDirs<'a>>
        requires empty { self.list.now ≡ [] }
        requires inside { IsInside self }
        ensures { MatchOption result (dirs_left self.entry ≡ []) (IsRefilled self.entry) }
    {
        if let Some(number) = self.above {
            let link = self.loaders.link(number);
            return Some(FirstDirs {
                list: link.dirs.rpath.as_slice(),
                above: link.above,
                ..self
            });
        }
        if self.second.is_empty() && self.third.is_empty() {
            return None;
        }
        Some(FirstDirs {
            list: self.second,
            second: self.third,
            third: &[],
            ..self
        })
    }
}

/// The next directory, and the directories after it.
pub(crate) fn split_first<'a>(dirs: FirstDirs<'a>) -> Option<(&'a Text, FirstDirs<'a>)>
    requires { IsInside dirs }
    ensures { MatchOption result (dirs_left dirs.entry ≡ []) (λ r. (dirs_left dirs.entry ≡ r.0.now ∷ dirs_left r.1) × IsInside r.1) }
{
    let mut left = dirs;
    while left.list.is_empty() {
        left = left.refilled()?;
    }
    let (dir, rest) = left.list.split_first()?;
    Some((dir, FirstDirs { list: rest, ..left }))
}

// The default directory with index `done`, and the index after it.
fn next_dir(system: SystemDirs, done: usize) -> Option<(&'static [u8], usize)>
    ensures { MatchOption result (drop done (system_dirs_of system) ≡ []) (λ r. drop done (system_dirs_of system) ≡ r.0.now ∷ drop r.1 (system_dirs_of system)) }
{
    match system {
        SystemDirs::Loader => next_builtin_dir(&Scope::Image, done),
        SystemDirs::Debian => next_builtin_dir(&Scope::Root { conf: None }, done),
    }
}

// The remaining default directories.
#[derive(Clone, Copy)]
struct DefaultDirs {
    system: SystemDirs,
    // The number of directories that are already used.
    done: usize,
}

impl DefaultDirs {
    // No directories.
    fn none() -> DefaultDirs
        ensures { defaults_left result ≡ [] }
    {
        DefaultDirs {
            system: SystemDirs::Loader,
            done: SYSTEM_DIRS,
        }
    }

    // The default directories of an object.
    fn of(system: SystemDirs, nodeflib: bool) -> DefaultDirs
        ensures { defaults_left result ≡ (if nodeflib then [] else system_dirs_of system) }
    {
        if nodeflib {
            return DefaultDirs::none();
        }
        DefaultDirs { system, done: 0 }
    }

    // The next directory, and the directories after it.
    fn split_first(self) -> Option<(&'static [u8], DefaultDirs)>
        ensures { MatchOption result (defaults_left self ≡ []) (λ r. defaults_left self ≡ r.0.now ∷ defaults_left r.1) }
    {
        let (dir, done) = next_dir(self.system, self.done)?;
        Some((dir, DefaultDirs { done, ..self }))
    }
}

/// A directory, and the hwcaps names whose subdirectories remain.
#[derive(Clone, Copy)]
pub(crate) struct At<'a> {
    pub dir: &'a [u8],
    pub caps: &'a [Text],
}

/// The next path of a name in the directory, and the remaining subdirectories.
pub(crate) fn next_at<'a>(
    alloc: Global,
    name: &[u8],
    at: At<'a>,
) -> Result<(Text, Option<At<'a>>), NoMemory>
    ensures { IfOk result (λ r. paths_at name.now (Some at.entry) ≡ r.0 ∷ paths_at name.now r.1) }
{
    match at.caps.split_first() {
        Some((cap, caps)) => {
            let path = hwcaps_path(alloc, at.dir, name, cap.as_bytes())?;
            Ok((path, Some(At { dir: at.dir, caps })))
        }
        None => Ok((plain_path(alloc, at.dir, name)?, None)),
    }
}

// Whether a path is in a default directory or below one. The other built-in directories are below these.
fn is_default(path: &[u8]) -> bool
    ensures { result ≡ is_default path.now }
{
    let mut done = 0;
    while let Some((dir, next)) = next_system_dir(done) {
        if is_below(dir, path) {
            return true;
        }
        done = next;
    }
    false
}

/// The path of the cache, if the search tries it.
pub(crate) fn tried<'a>(cached: Option<&'a [u8]>, nodeflib: bool) -> Option<&'a [u8]>
    ensures { option_copied result ≡ option_and_then (cached_path nodeflib) (option_copied cached.entry) }
{
    let path = cached?;
    if nodeflib && is_default(path) {
        return None;
    }
    Some(path)
}

// The first path of a list, and the paths after it.
fn split_list<'a>(list: &'a [Text]) -> Option<(&'a Text, &'a [Text])>
    ensures { MatchOption result (list.entry.now ≡ []) (λ r. list.entry.now ≡ r.0.now ∷ r.1.now) }
{
    list.split_first()
}

/// The search paths of a name, in order. Each path is built only when it is requested.
#[derive(Drop)]
pub struct Candidates<'a> {
    name: &'a [u8],
    caps: &'a [Text],
    // Paths from a given list.
    listed: &'a [Text],
    // The only path of a name with a slash.
    whole: Option<Text>,
    at: Option<At<'a>>,
    first: FirstDirs<'a>,
    cached: Option<&'a [u8]>,
    defaults: DefaultDirs,
}

impl<'a> Candidates<'a> {
    /// The paths of a list.
    pub(crate) fn of_list(loaders: &'a Loaders, list: &'a [Text]) -> Candidates<'a>
        ensures left { paths_left result ≡ list.entry.now }
        ensures inside { IsInside result.first }
    {
        Candidates {
            name: b"",
            caps: &[],
            listed: list,
            whole: None,
            at: None,
            first: FirstDirs::none(loaders),
            cached: None,
            defaults: DefaultDirs::none(),
        }
    }

    fn of_whole(loaders: &'a Loaders, name: &'a [u8], path: Text) -> Candidates<'a>
        ensures left { paths_left result ≡ path ∷ [] }
        ensures inside { IsInside result.first }
    {
        Candidates {
            name,
            caps: &[],
            listed: &[],
            whole: Some(path),
            at: None,
            first: FirstDirs::none(loaders),
            cached: None,
            defaults: DefaultDirs::none(),
        }
    }

    // The search paths of a name without a slash.
    fn of_name(
        loaders: &'a Loaders,
        number: usize,
        name: &'a [u8],
        env: &'a Env,
        cached: Option<&'a [u8]>,
    ) -> Candidates<'a>
        requires { number < length loaders.now }
        ensures left { paths_left result ≡ paths_by name.entry.now env.entry.now (reach_at loaders.entry.now number) (option_copied cached.entry) }
        ensures inside { IsInside result.first }
    {
        let nodeflib = loaders.link(number).dirs.nodeflib;
        Candidates {
            name,
            caps: env.caps.as_slice(),
            listed: &[],
            whole: None,
            at: None,
            first: FirstDirs::of(loaders, number),
            cached: tried(cached, nodeflib),
            defaults: DefaultDirs::of(env.system, nodeflib),
        }
    }

    /// The search paths of a name that the object with this number needs. `cached` is the path of the name in the cache, if there is one.
    pub fn new(
        alloc: Global,
        loaders: &'a Loaders,
        number: usize,
        name: &'a [u8],
        env: &'a Env,
        cached: Option<&'a [u8]>,
    ) -> Result<Candidates<'a>, NoMemory>
        requires { number < length loaders.now }
        ensures left { IfOk result (λ c. paths_left c ≡ all_paths name.entry.now env.entry.now (reach_at loaders.entry.now number) (option_copied cached.entry)) }
        ensures inside { IfOk result (λ c. IsInside c.first) }
    {
        if has_byte(b'/', name) {
            let path = from_root(alloc, name)?;
            return Ok(Candidates::of_whole(loaders, name, path));
        }
        Ok(Candidates::of_name(loaders, number, name, env, cached))
    }

    // The next path in the current directory.
    fn next_in(&mut self, alloc: Global, at: At<'a>) -> Result<Option<Text>, NoMemory>
        ensures next { IfOk result (λ path. IsNextAt path (paths_at self.old.name.now (Some at.entry)) (paths_at self.old.name.now self.new.at)) }
        ensures same { self.new ≡ record self.old { at = self.new.at } }
    {
        let (path, left) = next_at(alloc, self.name, at)?;
        self.at = left;
        Ok(Some(path))
    }

    /// The next path, if there is one.
    pub fn next_path(&mut self, alloc: Global) -> Result<Option<Text>, NoMemory>
        requires { IsInside self.old.first }
        ensures next { IfOk result (λ path. IsNext path (paths_left self.old) (paths_left self.new)) }
        ensures inside { IsInside self.new.first }
    {
        if let Some((path, rest)) = split_list(self.listed) {
            self.listed = rest;
            return Ok(Some(Text::copy_of(alloc, path.as_bytes())?));
        }
        if let Some(path) = self.whole.take() {
            return Ok(Some(path));
        }
        if let Some(at) = self.at {
            return self.next_in(alloc, at);
        }
        if let Some((dir, rest)) = split_first(self.first) {
            self.first = rest;
            let at = At {
                dir: dir.as_bytes(),
                caps: self.caps,
            };
            return self.next_in(alloc, at);
        }
        if let Some(path) = self.cached {
            self.cached = None;
            return Ok(Some(Text::copy_of(alloc, path)?));
        }
        if let Some((dir, rest)) = self.defaults.split_first() {
            self.defaults = rest;
            let at = At {
                dir,
                caps: self.caps,
            };
            return self.next_in(alloc, at);
        }
        Ok(None)
    }
}
