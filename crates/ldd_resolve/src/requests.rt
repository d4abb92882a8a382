//! The requests of a listing, one after another.
ghost use Rattle.std.specs.Prelude.{◌≡◌, ◌<◌, ◌∷◌, [], ℕ, List, length, IfOk, OnOk};
ghost use Rattle.rpath_search.specs.declared.kinds.Owner.{Owner};
ghost use Rattle.std.specs.Option.{option_copied};
ghost use Rattle.rpath_search.specs.Faults.{search_ending};
ghost use Rattle.rpath_search.specs.Loaders.{reach_at};
ghost use Rattle.ldd_resolve.specs.Loading.{Grows, IsSound};
ghost use Rattle.ldd_resolve.specs.Requests.{Answers, AnswersAll, AreKnownBy, BeginsPaths, FindsBy, IsEven, IsPartAt, paths_at};
ghost use Rattle.ldd_resolve.specs.Resolving.{cached_in};
ghost use Rattle.rpath_search.specs.Searching.{IsNew};

use crate::kinds::Reply;
use crate::loading::{Loading, Searched};
use cache_lookup::{Counted, Sorted, lookup};
use lib_types::{NoMemory, Text, Texts};
use rpath_search::{Answer, Candidates, Env, Part, SearchFault, Wanted, part_of, search_paths};
use std::alloc::Global;
use tree_face::{Store, Tree};

/// The inputs of a listing apart from the store.
#[derive(Drop)]
pub(crate) struct Given<'s, 'a> {
    pub tree: &'s Tree,
    pub cache: Option<&'s Sorted<'a>>,
    /// With the ABI of the program.
    pub env: &'s Env,
}

// The path of a name in the cache.
fn cached_path<'a>(cache: Option<&Sorted<'a>>, name: &[u8], env: &Env) -> Option<&'a [u8]>
    ensures { option_copied result ≡ cached_in (option_copied cache.entry) env.now name.now }
{
    let cache = cache?;
    let mut entries = Counted::new(cache);
    let index = lookup(&mut entries, name, env.abi, &env.caps)?;
    cache.path(index)
}

// Searches for a name that the object with this number needs.
fn search_name<S: Store>(
    alloc: Global,
    given: &Given<'_, '_>,
    store: &mut S,
    loading: &Loading,
    number: usize,
    name: &[u8],
) -> Result<Option<Answer>, SearchFault>
    requires number { number < length loading.now.loaders }
    requires known { AreKnownBy (S.state store.old).held given.now loading.now.places }
    ensures finds { IfOk result (FindsBy (S.state store.old).held given.now loading.now.places.loaded (paths_at given.now name.now (reach_at loading.now.loaders number))) }
    ensures new { IfOk result (IsNew (S.state store.old).held given.now.tree.now given.now.env.now.abi loading.now.places.loaded) }
    ensures begins { BeginsPaths (S.state store.old).held given.now loading.now.places.loaded (paths_at given.now name.now (reach_at loading.now.loaders number))
        (search_ending result) (S.state store.old) (S.state store.new) }
{
    let cached = cached_path(given.cache, name, given.env);
    let paths = Candidates::new(alloc, &loading.loaders, number, name, given.env, cached)?;
    search_paths(
        alloc,
        given.tree,
        store,
        &loading.places,
        paths,
        given.env.abi,
    )
}

// The part of the search that gives the path of a new library, which the object with this number needs by this name.
fn part_for(
    alloc: Global,
    given: &Given<'_, '_>,
    loading: &Loading,
    number: usize,
    name: &[u8],
    answer: &Option<Answer>,
) -> Result<Part, NoMemory>
    requires { number < length loading.now.loaders }
    ensures { IfOk result (IsPartAt given.now loading.now number name.now answer.now) }
{
    let Some(Answer::New(found)) = answer else {
        return Ok(Part::Default);
    };
    let wanted = Wanted {
        name,
        env: given.env,
        cached: cached_path(given.cache, name, given.env),
    };
    part_of(
        alloc,
        &loading.loaders,
        number,
        &wanted,
        found.path.as_bytes(),
    )
}

// Answers a request of the object with this number.
fn answer_request<S: Store>(
    alloc: Global,
    given: &Given<'_, '_>,
    store: &mut S,
    loading: &mut Loading,
    number: usize,
    name: Text,
) -> Result<(), SearchFault>
    requires loader { number < length loading.old.loaders }
    requires sound { IsSound (S.state store.old).held given.now.tree.now given.now.env.now.abi loading.old }
    ensures sound { OnOk result (IsSound (S.state store.old).held given.now.tree.now given.now.env.now.abi loading.new) }
    ensures grows { OnOk result (Grows loading.old loading.new) }
    ensures answers { (chain : List Owner) (rest : List (List ℕ)) → Answers (S.state store.old).held given.now number chain (name ∷ rest) rest
        (search_ending result) loading.old loading.new (S.state store.old) (S.state store.new) }
    ensures held { (S.state store.new).held ≡ (S.state store.old).held }
{
    if loading.names.contains(name.as_bytes()) {
        loading.add_reply(Reply::Known)?;
        return Ok(());
    }
    let answer = search_name(alloc, given, store, loading, number, name.as_bytes())?;
    let part = part_for(alloc, given, loading, number, name.as_bytes(), &answer)?;
    let searched = Searched { answer, part };
    loading.take_answer(alloc, given.env, name, searched, number)?;
    Ok(())
}

// Answers the requests of the object with this number for these names.
fn answer_names<S: Store>(
    alloc: Global,
    given: &Given<'_, '_>,
    store: &mut S,
    loading: &mut Loading,
    number: usize,
    needed: Texts,
) -> Result<(), SearchFault>
    requires loader { number < length loading.old.loaders }
    requires sound { IsSound (S.state store.old).held given.now.tree.now given.now.env.now.abi loading.old }
    ensures sound { OnOk result (IsSound (S.state store.old).held given.now.tree.now given.now.env.now.abi loading.new) }
    ensures grows { OnOk result (Grows loading.old loading.new) }
    ensures answers { (chain : List Owner) → Answers (S.state store.old).held given.now number chain needed [] (search_ending result)
        loading.old loading.new (S.state store.old) (S.state store.new) }
    ensures held { (S.state store.new).held ≡ (S.state store.old).held }
{
    for name in needed.into_vec() {
        answer_request(alloc, given, store, loading, number, name)?;
    }
    Ok(())
}

/// Answers the requests of all objects, breadth first.
pub(crate) fn answer_all<S: Store>(
    alloc: Global,
    given: &Given<'_, '_>,
    store: &mut S,
    loading: &mut Loading,
) -> Result<(), SearchFault>
    requires sound { IsSound (S.state store.old).held given.now.tree.now given.now.env.now.abi loading.old }
    requires even { IsEven loading.old 0 }
    ensures answers { AnswersAll (S.state store.old).held given.now (search_ending result) loading.old loading.new (S.state store.old) (S.state store.new) }
    ensures held { (S.state store.new).held ≡ (S.state store.old).held }
{
    given.tree.know();
    let mut number = 0;
    while let Some(needed) = loading.pending.pop_front() {
        answer_names(alloc, given, store, loading, number, needed)?;
        number += 1;
    }
    Ok(())
}
