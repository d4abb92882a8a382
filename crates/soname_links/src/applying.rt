//! The tree with the planned links.
ghost use Rattle.std.specs.Prelude.{◌≡◌, ◌≤◌, false, All, IfErr, IfOk, IsTrue, OnErr, OnOk, length};
ghost use Rattle.std.specs.List.{filter_map, list_any};
ghost use Rattle.std.specs.Option.{option_copied};
ghost use Rattle.lib_types.specs.Name.{is_name};
ghost use Rattle.image_tree.specs.Paths.{is_path};
ghost use Rattle.image_tree.specs.Tree.{clashes};
ghost use Rattle.image_tree.specs.declared.node.Node.TheVariants.{Link};
ghost use Rattle.image_tree.specs.declared.tree.TheConstants.{NODES_MAX};
ghost use Rattle.soname_links.specs.Apply.{are_clear, is_at_path, is_last_new, is_link, is_plan, new_path, new_paths, nodes_with, too_many, HasSome, IsApplyFault};
ghost use Rattle.soname_links.specs.Plan.{with_link, with_links};
ghost use Rattle.soname_links.specs.Settled.{Settles};

use crate::kinds::ApplyFault;
use lib_types::{NoMemory, Text, Texts, is_name};
use link_plan::{Plan, Planned};
use std::alloc::Global;
use string_pool::ascending;
use tree_face::{NODES_MAX, Node, Tree, is_path};

// The path of a link, if the tree has no node there.
fn new_path<'a>(tree: &Tree, planned: &'a Planned) -> Option<&'a Text>
    ensures { option_copied result ≡ new_path tree.now planned.now }
{
    if tree.node(planned.path.as_bytes()).is_some() {
        return None;
    }
    Some(&planned.path)
}

// The number of links whose path isn't in the tree. Repeated paths count each time.
fn count_new(tree: &Tree, plan: &[Planned]) -> usize
    ensures count { result ≡ length (filter_map (new_path tree.now) plan.now) }
    ensures few { result ≤ length plan.now }
{
    let mut count = 0;
    for planned in plan {
        if new_path(tree, planned).is_some() {
            count += 1;
        }
    }
    count
}

// The paths at which the plan adds a node, each once.
fn new_paths(alloc: Global, tree: &Tree, plan: &[Planned]) -> Result<Texts, NoMemory>
    ensures { IfOk result (λ paths. paths ≡ new_paths tree.now plan.now) }
{
    let mut paths = Vec::new(alloc);
    for planned in plan {
        if let Some(path) = new_path(tree, planned) {
            paths.push(Text::copy_of(alloc, path.as_bytes())?)?;
        }
    }
    ascending(paths)
}

// Whether one of the links is at this path.
fn has_path(plan: &[Planned], path: &[u8]) -> bool
    ensures { result ≡ list_any (is_at_path path.now) plan.now }
{
    for planned in plan {
        if path == planned.path.as_bytes() {
            return true;
        }
    }
    false
}

// Whether the tree has no node at the link's path and no later link has the same path.
fn is_last_new(tree: &Tree, planned: &Planned, later: &[Planned]) -> bool
    ensures { result ≡ is_last_new tree.now planned.now later.now }
{
    new_path(tree, planned).is_some() && !has_path(later, planned.path.as_bytes())
}

// Counts the different new paths by comparing each with the later ones. It allocates no memory.
fn count_compared(tree: &Tree, plan: &[Planned]) -> usize
    ensures { result ≡ length (new_paths tree.now plan.now) }
{
    let mut count = 0;
    for i in 0..plan.len() {
        if is_last_new(tree, &plan[i], &plan[i + 1..]) {
            count += 1;
        }
    }
    count
}

// Counts the different new paths. It sorts them if memory allows, and compares them pairwise otherwise.
fn count_paths(alloc: Global, tree: &Tree, plan: &[Planned]) -> usize
    ensures { result ≡ length (new_paths tree.now plan.now) }
{
    match new_paths(alloc, tree, plan) {
        Ok(paths) => paths.len(),
        Err(NoMemory) => count_compared(tree, plan),
    }
}

// The number of nodes that the tree would have, if it exceeds the maximum. If the plan fits even when all its paths are new, the
// tree isn't searched. If the new paths fit even when each link counts, they aren't compared.
#[tactic(auto, using(crate::proofs::NewPaths::few_links, crate::proofs::NewPaths::few_paths))]
fn too_many(alloc: Global, tree: &Tree, plan: &[Planned]) -> Option<u64>
    ensures { result ≡ too_many tree.now plan.now }
{
    tree.know();
    if plan.len() <= NODES_MAX - tree.len() {
        return None;
    }
    if count_new(tree, plan) <= NODES_MAX - tree.len() {
        return None;
    }
    let nodes = tree.len() + count_paths(alloc, tree, plan);
    if nodes <= NODES_MAX {
        return None;
    }
    Some(nodes as u64)
}

// Puts a link. If it would clash, the result is NoMemory too.
#[tactic(auto, using(crate::proofs::Targets::name_is_target))]
fn put_link(alloc: Global, tree: &mut Tree, planned: &Planned) -> Result<(), NoMemory>
    requires path { IsTrue (is_path planned.now.path) }
    requires file { IsTrue (is_name planned.now.file) }
    ensures done { OnOk result (tree.new ≡ with_link tree.old planned.now) }
    ensures clear { OnOk result (clashes tree.old planned.now.path (Link planned.now.file) ≡ false) }
    ensures refused { OnErr result (tree.new ≡ tree.old) }
{
    let target = Text::copy_of(alloc, planned.file.as_bytes())?;
    match tree.put(planned.path.as_bytes(), Node::Link { target }) {
        Ok(()) => Ok(()),
        Err(_) => Err(NoMemory),
    }
}

// Puts the links in order.
fn put_links(alloc: Global, tree: &mut Tree, plan: &[Planned]) -> Result<(), NoMemory>
    requires paths { All (λ planned. IsTrue (is_path planned.path)) plan.now }
    requires files { All (λ planned. IsTrue (is_name planned.file)) plan.now }
    ensures done { OnOk result (tree.new ≡ with_links tree.old plan.now) }
    ensures clear { OnOk result (IsTrue (are_clear tree.old plan.now)) }
    ensures refused { OnErr result (HasSome tree.old plan.now tree.new) }
{
    for planned in plan {
        put_link(alloc, tree, planned)?;
    }
    Ok(())
}

fn is_link(planned: &Planned) -> bool
    ensures { result ≡ is_link planned.now }
{
    is_path(planned.path.as_bytes()) && is_name(planned.file.as_bytes())
}

/// Whether each link of a plan has a valid path, and the name of a file as its target.
pub fn is_plan(plan: &Plan) -> bool
    ensures { result ≡ is_plan plan.now }
{
    for planned in plan.as_slice() {
        if !is_link(planned) {
            return false;
        }
    }
    true
}

/// Puts the links of a plan into the tree.
///
/// A plan that was made for this tree has links only in the tree's directories, where the tree has a link or nothing. After
/// the links are put, a plan for the same search directories and analyses is empty. If a link would clash, the result is NoMemory
/// too; links of a plan for this tree never clash. If the tree would have too many nodes, the result is TooLarge even if memory is out.
#[tactic(auto, using(crate::proofs::Counted::nodes_counted, crate::proofs::Targets::paths_of, crate::proofs::Targets::files_of))]
pub fn apply(alloc: Global, tree: &mut Tree, plan: &Plan) -> Result<(), ApplyFault>
    requires { IsTrue (is_plan plan.now) }
    ensures done { OnOk result (tree.new ≡ with_links tree.old plan.now) }
    ensures clear { OnOk result (IsTrue (are_clear tree.old plan.now)) }
    ensures settled { OnOk result (Settles tree.old plan.now tree.new) }
    ensures nodes { nodes_with tree.old plan.now ≡ length (with_links tree.old plan.now) }
    ensures few { OnOk result (nodes_with tree.old plan.now ≤ NODES_MAX) }
    ensures fault { IfErr result (IsApplyFault tree.old plan.now tree.new) }
{
    tree.know();
    if let Some(nodes) = too_many(alloc, tree, plan.as_slice()) {
        return Err(ApplyFault::TooLarge { nodes });
    }
    put_links(alloc, tree, plan.as_slice())?;
    Ok(())
}
