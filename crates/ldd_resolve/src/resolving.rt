//! What a program loads.
ghost use Rattle.std.specs.Prelude.{◌≡◌, ◌∷◌, [], false, true, Ok, Err, Some, None, is_some, IfOk};
ghost use Rattle.std.specs.Option.{option_copied};
ghost use Rattle.elf_dynamic.specs.Begun.{ReadsBy, file_keys, key_in, lacks_one};
ghost use Rattle.lib_types.specs.Ranges.{IsInRange};
ghost use Rattle.rpath_search.specs.Faults.{search_ending};
ghost use Rattle.tree_face.specs.Known.{IfKnown};
ghost use Rattle.tree_face.specs.Store.{Contents};
ghost use Rattle.image_tree.specs.Tree.{node_at};
ghost use Rattle.ldd_resolve.specs.Requests.{Lists};
ghost use Rattle.ldd_resolve.specs.Resolving.{AreLoaded, BeginsNoneLacking, IfBadProgram, IsBadProgram, IsNoProgram, IsScope, ReadsListing, object_at, program_at, resolve_ending};

use crate::kinds::{Members, ResolveFault, Scope};
use crate::loading::Loading;
use crate::requests::{Given, answer_all};
use cache_lookup::Sorted;
use elf_dynamic::kinds::Object;
use elf_dynamic::object;
use path_walk::file_at;
use rpath_search::{Env, Found, SearchFault, from_root, key_at};
use std::alloc::Global;
use tree_face::{Store, Tree};

// Reads the program's file, at a path without links. The key is missing only if the file is.
fn read_program<S: Store>(
    alloc: Global,
    tree: &Tree,
    store: &mut S,
    real: &[u8],
) -> Result<Object, ResolveFault>
    ensures object { IfOk result (λ o. IfKnown (S.state store.old).held (λ held. object_at held tree.now real.now ≡ Some (Ok o))) }
    ensures defect { IfBadProgram result (λ d. IfKnown (S.state store.old).held (λ held. object_at held tree.now real.now ≡ Some (Err d))) }
    ensures range { IfBadProgram result IsInRange }
    ensures none { result ≡ Err ResolveFault.NoProgram → key_in (node_at tree.now real.now) ≡ None }
    ensures held { IfOk result (λ _. IfKnown (S.state store.old).held (λ held. lacks_one held (file_keys tree.now (real.now ∷ [])) ≡ false)) }
    ensures reads { ReadsBy (S.state store.old).held (file_keys tree.now (real.now ∷ [])) (resolve_ending result) (S.state store.old) (S.state store.new) }
{
    let Some(key) = key_at(tree, real) else {
        return Err(ResolveFault::NoProgram);
    };
    Ok(object(alloc, store, key)?)
}

// The objects that a program loads, after its file was read.
fn load<S: Store>(
    alloc: Global,
    tree: &Tree,
    store: &mut S,
    cache: Option<&Sorted<'_>>,
    env: &Env,
    program: Found,
) -> Result<Scope, SearchFault>
    requires node { is_some (node_at tree.now program.real) ≡ true }
    requires object { IfKnown (S.state store.old).held (λ held. object_at held tree.now program.real ≡ Some (Ok program.object)) }
    ensures { Lists (S.state store.old).held tree.now (option_copied cache.entry) env.now program result (S.state store.old) (S.state store.new) }
{
    let env = env.for_abi(alloc, program.object.abi)?;
    let given = Given {
        tree,
        cache,
        env: &env,
    };
    let mut loading = Loading::new(alloc, &env, program)?;
    match answer_all(alloc, &given, store, &mut loading) {
        Ok(()) => Ok(Scope {
            members: Members::from_vec(loading.members),
            listing: loading.items,
            replies: loading.replies,
            found: loading.found,
        }),
        Err(fault) => Err(fault),
    }
}

/// The members that a program loads, with their paths and names, the listing of the requests, the replies to them, and the paths by which members were found.
/// The program's ABI replaces that of `env`. The search skips a cache that doesn't exist.
///
/// A loaded file isn't read again, and each file is loaded once, so the call terminates for every image. A name that isn't found is
/// searched again for each later object that needs it, because that object's own directories may have it.
pub fn scope<S: Store>(
    alloc: Global,
    tree: &Tree,
    store: &mut S,
    cache: Option<&Sorted<'_>>,
    program: &[u8],
    env: &Env,
) -> Result<Scope, ResolveFault>
    ensures scope { IfOk result (λ scope. IfKnown (S.state store.old).held
        (λ held. IsScope tree.now (option_copied cache.entry) program.now env.now held scope)) }
    ensures loaded { IfOk result AreLoaded }
    ensures held { IfOk result (λ _. IfKnown (S.state store.old).held (λ held. BeginsNoneLacking held (S.state store.old) (S.state store.new))) }
    ensures no_program { IsNoProgram (program_at tree.now program.now) result }
    ensures bad_program { IfBadProgram result (λ d. IfKnown (S.state store.old).held (λ held. IsBadProgram held tree.now program.now d)) }
    ensures range { IfBadProgram result IsInRange }
    ensures reads { ReadsListing (S.state store.old).held tree.now (option_copied cache.entry) program.now env.now (resolve_ending result)
        (S.state store.old) (S.state store.new) }
{
    let path = from_root(alloc, program)?;
    let Some(real) = file_at(alloc, tree, path.as_bytes())? else {
        return Err(ResolveFault::NoProgram);
    };
    let object = read_program(alloc, tree, store, real.as_bytes())?;
    let program = Found { path, real, object };
    let scope = load(alloc, tree, store, cache, env, program)?;
    Ok(scope)
}
