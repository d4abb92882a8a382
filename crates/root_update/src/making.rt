//! What an update of a directory is about to write.
ghost use Rattle.std.specs.Prelude.{◌≡◌, ◌≤◌, [], IfOk, IsTrue, Some, None, if◌then◌else◌, map, true};
ghost use Rattle.std.specs.Option.{option_copied};
ghost use Rattle.aux_cache.specs.Stamps.{AreRecordable};
ghost use Rattle.root_links.specs.Links.{are_valid, links_in};
ghost use Rattle.root_update.specs.Loading.{IsRead, root_image};
ghost use Rattle.root_update.specs.Made.{Prepares, root_states};
ghost use Rattle.root_update.specs.Update.{aux_for, linking};
ghost use Rattle.root_writes.specs.Writing.{states};
ghost use Rattle.soname_links.specs.Apply.{is_plan};
ghost use Rattle.tree_face.specs.Disk.{KeepsMade};

use crate::fault::RootFault;
use crate::parts::AuxUse;
use crate::stamps::{AuxStamps, read_aux};
use hwcap_dirs::Scope;
use image_session::Session;
use ldconfig_core::{Prepared, prepare};
use lib_types::NoMemory;
use link_plan::{Plan, Planned};
use root_folder::Folder;
use root_links::NewLink;
use root_tree::read_tree;
use std::alloc::Global;
use tree_face::{Disk, Store, Tree};

// The directory as an image.
fn root_image(tree: Tree, aux: AuxStamps) -> Session
    requires recordable { AreRecordable aux.stamps }
    ensures { result ≡ root_image tree aux }
{
    Session {
        tree,
        stamps: aux.stamps,
        edited: false,
        damaged: aux.damaged,
    }
}

// Reads the auxiliary cache, if it is used, and then the tree.
fn read_image<F: Folder, D: Disk>(
    alloc: Global,
    aux: AuxUse,
    folder: &mut F,
    disk: &mut D,
) -> Result<Session, RootFault>
    ensures reads { IsRead aux result (states (F.state folder.old) (D.state disk.old)) (states (F.state folder.new) (D.state disk.new)) }
    ensures made { KeepsMade (D.state disk.old) (D.state disk.new) }
    ensures faults { (D.state disk.old).faults ≤ (D.state disk.new).faults }
{
    let stamps = read_aux(alloc, aux, disk)?;
    match read_tree(alloc, folder) {
        Ok(tree) => Ok(root_image(tree, stamps)),
        Err(fault) => Err(RootFault::Tree(fault)),
    }
}

/// Reads the tree of a directory and the stamps of its files, and makes what its update writes.
pub(crate) fn prepare_root<F: Folder, S: Store, D: Disk>(
    alloc: Global,
    scope: &Scope,
    aux: AuxUse,
    folder: &mut F,
    store: &mut S,
    disk: &mut D,
) -> Result<Prepared, RootFault>
    ensures prepares { Prepares scope.now aux result
        (root_states (F.state folder.old) (S.state store.old) (D.state disk.old)) (root_states (F.state folder.new) (S.state store.new) (D.state disk.new)) }
    ensures valid { IfOk result (λ prepared. IsTrue (is_plan prepared.plan)) }
    ensures made { KeepsMade (D.state disk.old) (D.state disk.new) }
    ensures faults { (D.state disk.old).faults ≤ (D.state disk.new).faults }
{
    let mut image = read_image(alloc, aux, folder, disk)?;
    match prepare(alloc, scope, &mut image, store) {
        Ok(prepared) => Ok(prepared),
        Err(fault) => Err(RootFault::Update(fault)),
    }
}

/// The links of a plan, or none if they aren't requested.
pub(crate) fn asked_links(alloc: Global, asked: bool, plan: Plan) -> Plan
    requires { IsTrue (is_plan plan) }
    ensures links { result ≡ (if asked then plan else []) }
    ensures valid { IsTrue (is_plan result) }
{
    if asked { plan } else { Plan::new(alloc) }
}

/// The links of a plan, as paths and targets.
pub(crate) fn new_links<'a>(
    alloc: Global,
    plan: &'a [Planned],
) -> Result<Vec<NewLink<'a>>, NoMemory>
    requires { IsTrue (is_plan plan.now) }
    ensures links { IfOk result (λ links. links_in links.items ≡ map linking plan.now) }
    ensures valid { IfOk result (λ links. are_valid (links_in links.items) ≡ true) }
{
    let mut links = Vec::new(alloc);
    for planned in plan {
        links.push(NewLink {
            path: planned.path.as_bytes(),
            target: planned.file.as_bytes(),
        })?;
    }
    Ok(links)
}

/// The cache, if it is requested.
pub(crate) fn cache_for(asked: bool, cache: &[u8]) -> Option<&[u8]>
    ensures { option_copied result ≡ (if asked then Some cache.now else None) }
{
    if asked { Some(cache) } else { None }
}

/// The auxiliary cache, if it is to be written.
pub(crate) fn aux_for(aux: AuxUse, text: &[u8]) -> Option<&[u8]>
    ensures { option_copied result ≡ aux_for aux text.now }
{
    match aux {
        AuxUse::Unused => None,
        AuxUse::Replaced | AuxUse::Updated => Some(text),
    }
}
