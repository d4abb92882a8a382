//! The search paths as a list.
ghost use Rattle.std.specs.Prelude.{◌≡◌, ◌<◌, length, IfOk};
ghost use Rattle.std.specs.Option.{option_copied};
ghost use Rattle.rpath_search.specs.Candidates.{IsInside, paths_left};
ghost use Rattle.rpath_search.specs.Listed.{HasLast};
ghost use Rattle.rpath_search.specs.Places.{paths, with_caps_once};

use crate::candidates::Candidates;
use crate::kinds::{Chain, Env, Owner};
use crate::loaders::Loaders;
use crate::paths::from_root;
use lib_types::{NoMemory, Texts, has_byte};
use std::alloc::Global;

// The objects of a chain, the program first.
fn loaders_of(alloc: Global, env: &Env, owners: &[Owner]) -> Result<Loaders, NoMemory>
    requires { 0 < length owners.now }
    ensures { IfOk result (HasLast env.now owners.now) }
{
    let mut left = owners.len() - 1;
    let mut loaders = Loaders::new(alloc, env, &owners[left])?;
    while left > 0 {
        left -= 1;
        let last = loaders.len() - 1;
        loaders.add(alloc, env, &owners[left], last)?;
    }
    Ok(loaders)
}

// All remaining paths.
fn collected(alloc: Global, candidates: Candidates<'_>) -> Result<Texts, NoMemory>
    requires { IsInside candidates.first }
    ensures { IfOk result (λ list. list ≡ paths_left candidates.entry) }
{
    let mut left = candidates;
    let mut list = Texts::new(alloc);
    while let Some(path) = left.next_path(alloc)? {
        list.push(path)?;
    }
    Ok(list)
}

/// The search paths of a name that the first object of a chain needs, in order. `cached` is the path of the name in the cache, if there is
/// one. If a hwcaps name occurs again in `caps`, only its first position counts, so it repeats no directory.
///
/// The memory for each name is proportional to the number of the chain's items and to the length of `caps`.
#[tactic(auto, unfolding(crate::specs::Places::paths))]
pub fn places(
    alloc: Global,
    name: &[u8],
    chain: &Chain,
    env: &Env,
    cached: Option<&[u8]>,
) -> Result<Texts, NoMemory>
    ensures { IfOk result (λ list. list ≡ paths name.now chain.now (with_caps_once env.now) (option_copied cached.entry)) }
{
    if has_byte(b'/', name) {
        let mut paths = Texts::new(alloc);
        paths.push(from_root(alloc, name)?)?;
        return Ok(paths);
    }
    if chain.is_empty() {
        return Ok(Texts::new(alloc));
    }
    let loaders = loaders_of(alloc, env, chain.as_slice())?;
    let last = loaders.len() - 1;
    let once = env.for_abi(alloc, env.abi)?;
    let candidates = Candidates::new(alloc, &loaders, last, name, &once, cached)?;
    collected(alloc, candidates)
}
