//! The libraries that the loader can't search for.
ghost use Rattle.std.specs.Prelude.{◌≡◌, ℕ, List, IfOk, OnOk};
ghost use Rattle.std.specs.List.{IsDistinct};
ghost use Rattle.std.specs.Map.{keys_of};
ghost use Rattle.std.specs.Str.{bytes_eq};
ghost use Rattle.file_table.specs.Table.{analysis_at};
ghost use Rattle.library_search.specs.Judged.{can_search, judged, judged_all};
ghost use Rattle.library_search.specs.Unsearchable.{is_unsearchable, unsearchable};

use file_table::Table;
use hwcap_dirs::Scope;
use lib_types::{Analysis, Defect, NoMemory, Text};
use path_walk::parted;
use searchable_names::is_searchable;
use std::alloc::Global;

// Whether the loader can search for a library with this soname at this path.
fn can_search(path: &[u8], soname: &Option<Text>) -> bool
    ensures { result ≡ can_search path.now soname.now }
{
    let (_, name) = parted(path);
    if !is_searchable(name) {
        return false;
    }
    match soname {
        Some(soname) => is_searchable(soname.as_bytes()),
        None => true,
    }
}

fn is_unsearchable(path: &[u8], analysis: &Analysis) -> bool
    ensures { result ≡ is_unsearchable path.now analysis.now }
{
    match analysis {
        Analysis::Lib { soname, .. } => !can_search(path, soname),
        Analysis::Not(_) => false,
    }
}

// The paths of the libraries that the loader can't search for.
fn unsearchable(alloc: Global, table: &Table) -> Result<Vec<Text>, NoMemory>
    ensures paths { IfOk result (λ paths. paths.items ≡ unsearchable table.now) }
    ensures distinct { OnOk result (IsDistinct bytes_eq (keys_of table.now)) }
{
    let mut paths = Vec::new(alloc);
    for (path, analysis) in table.iter() {
        if is_unsearchable(path.as_bytes(), analysis) {
            paths.push(path.copy(alloc)?)?;
        }
    }
    Ok(paths)
}

// Replaces the analyses of these libraries.
#[tactic(auto, using(crate::proofs::Replaced::judging_laws))]
fn judge_all(alloc: Global, table: &mut Table) -> Result<(), NoMemory>
    ensures rows { OnOk result (keys_of table.new ≡ keys_of table.old) }
    ensures judged { OnOk result ((path : List ℕ) → analysis_at table.new path ≡ judged_all (analysis_at table.old) path) }
{
    for path in unsearchable(alloc, table)? {
        table.insert(path, Analysis::Not(Defect::Unsearchable))?;
    }
    Ok(())
}

/// Replaces the analyses of the libraries that the loader can't search for, where the system's loader reads the cache. The rows stay.
pub(crate) fn judge(alloc: Global, scope: &Scope, table: &mut Table) -> Result<(), NoMemory>
    ensures rows { OnOk result (keys_of table.new ≡ keys_of table.old) }
    ensures judged { OnOk result ((path : List ℕ) → analysis_at table.new path ≡ judged scope.now (analysis_at table.old) path) }
{
    match scope {
        Scope::Image => Ok(()),
        Scope::Root { .. } | Scope::Only { .. } => judge_all(alloc, table),
    }
}
