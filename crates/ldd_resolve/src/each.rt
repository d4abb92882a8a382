//! What several programs load.
ghost use Rattle.std.specs.Option.{option_copied};
ghost use Rattle.std.specs.Prelude.{◌≡◌, IfOk};
ghost use Rattle.ldd_resolve.specs.Each.{ResolvesEach, ResolvesOne, outcome_by, outcome_in};

use crate::kinds::{ProgramFault, ProgramScope, ProgramScopes, ResolveFault, Scope};
use crate::resolving::scope;
use cache_lookup::Sorted;
use lib_types::{Text, Texts};
use rpath_search::{Env, SearchFault};
use std::alloc::Global;
use tree_face::{Store, Tree};

// The scope, or why the path has no program, or the fault that ends the run.
fn divided(outcome: Result<Scope, ResolveFault>) -> Result<Result<Scope, ProgramFault>, SearchFault>
    ensures { outcome_in result ≡ outcome }
{
    match outcome {
        Ok(scope) => Ok(Ok(scope)),
        Err(ResolveFault::NoProgram) => Ok(Err(ProgramFault::NoProgram)),
        Err(ResolveFault::BadProgram(defect)) => Ok(Err(ProgramFault::BadProgram(defect))),
        Err(ResolveFault::StoreFault) => Err(SearchFault::StoreFault),
        Err(ResolveFault::NoMemory) => Err(SearchFault::NoMemory),
    }
}

// What the program at this path loads, or why it has none.
fn resolve_one<S: Store>(
    alloc: Global,
    tree: &Tree,
    store: &mut S,
    cache: Option<&Sorted<'_>>,
    path: Text,
    env: &Env,
) -> Result<ProgramScope, SearchFault>
    ensures path { IfOk result (λ p. p.path ≡ path) }
    ensures resolves { ResolvesOne (S.state store.old).held tree.now (option_copied cache.entry) env.now path (outcome_by result) (S.state store.old) (S.state store.new) }
{
    let outcome = scope(alloc, tree, store, cache, path.as_bytes(), env);
    match divided(outcome) {
        Ok(scope) => Ok(ProgramScope { path, scope }),
        Err(fault) => Err(fault),
    }
}

/// What the programs at these paths load, each as `scope` gives it, in order. A path without a program has the reason in place of the
/// scope. If the store fails or memory runs out, no more programs are read.
pub fn resolve_each<S: Store>(
    alloc: Global,
    tree: &Tree,
    store: &mut S,
    cache: Option<&Sorted<'_>>,
    paths: Texts,
    env: &Env,
) -> Result<ProgramScopes, SearchFault>
    ensures { ResolvesEach (S.state store.old).held tree.now (option_copied cache.entry) env.now paths result (S.state store.old) (S.state store.new) }
{
    let mut scopes = ProgramScopes::new(alloc);
    for path in paths.into_vec() {
        let resolved = resolve_one(alloc, tree, store, cache, path, env)?;
        scopes.push(resolved)?;
    }
    Ok(scopes)
}
