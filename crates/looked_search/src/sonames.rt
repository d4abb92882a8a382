//! Looks up the sonames that aren't library names. Nearly always there are none.
ghost use Rattle.std.specs.Prelude.{◌≡◌, ◌∷◌, [], None, Some, IfErr, IfOk, IsTrue, OnOk, flat_map, true};
ghost use Rattle.std.specs.Option.{option_copied};
ghost use Rattle.image_tree.specs.Node.{is_target};
ghost use Rattle.image_tree.specs.Paths.{is_path};
ghost use Rattle.image_tree.specs.Tree.{node_at};
ghost use Rattle.image_tree.specs.declared.node.Node.TheVariants.{Link};
ghost use Rattle.looked_search.specs.Sonames.{AddsSonames, AddsTree, link_target, odd_paths, odd_soname, odd_sonames, path_in, paths_in, soname_of};
ghost use Rattle.root_tree.specs.ReadTree.{ReadsOn};
ghost use Rattle.root_tree.specs.SoFar.{is_of_adding};
ghost use Rattle.seen_tree.specs.Seen.{with_found};

use file_table::Table;
use hwcap_dirs::{Dirs, Place};
use lib_types::{Analysis, NoMemory, Text};
use library_files::has_no_cap;
use looked_tree::LookedPart;
use name_order::is_library_name;
use path_walk::{join, parted};
use root_folder::Folder;
use root_tree::TreeRead;
use std::alloc::Global;
use tree_face::{Node, Tree, TreeFault};

// The soname of a library at this path: its own name if it has none.
fn soname_of<'a>(path: &'a [u8], analysis: &'a Analysis) -> Option<&'a [u8]>
    ensures { option_copied result ≡ soname_of path.now analysis.now }
{
    let (_, name) = parted(path);
    match analysis {
        Analysis::Lib {
            soname: Some(soname),
            ..
        } => Some(soname.as_bytes()),
        Analysis::Lib { soname: None, .. } => Some(name),
        Analysis::Not(_) => None,
    }
}

// The same, if it isn't a library name.
fn odd_soname<'a>(path: &'a [u8], analysis: &'a Analysis) -> Option<&'a [u8]>
    ensures { option_copied result ≡ odd_soname (path.now, analysis.now) }
{
    let soname = soname_of(path, analysis)?;
    if is_library_name(soname) {
        return None;
    }
    Some(soname)
}

// The sonames in a table that aren't library names.
fn odd_sonames(alloc: Global, table: &Table) -> Result<Vec<Text>, NoMemory>
    ensures { IfOk result (λ sonames. sonames.items ≡ odd_sonames table.now) }
{
    let mut sonames = Vec::new(alloc);
    for (path, analysis) in table.iter() {
        if let Some(soname) = odd_soname(path.as_bytes(), analysis) {
            sonames.push(Text::copy_of(alloc, soname)?)?;
        }
    }
    Ok(sonames)
}

// The target of the link at a path, if there is one.
fn link_at<'a>(tree: &'a Tree, path: &[u8]) -> Option<&'a Text>
    ensures target { option_copied result ≡ link_target (node_at tree.now path.now) }
{
    match tree.node(path) {
        Some(Node::Link { target }) => Some(target),
        _ => None,
    }
}

// Puts a link where the tree has no node. A link that clashes with the other nodes is skipped. This can only happen if the directory
// changes while it is read.
fn put_link(tree: &mut Tree, path: &[u8], target: Text) -> Result<(), TreeRead>
    requires path { IsTrue (is_path path.now) }
    requires target { IsTrue (is_target target) }
    requires free { node_at tree.old path.now ≡ None }
    ensures added { OnOk result (tree.new ≡ with_found tree.old path.now (Some (Link target))) }
    ensures fault { IfErr result (λ fault. is_of_adding fault ≡ true) }
{
    match tree.put(path, Node::Link { target }) {
        Ok(()) => Ok(()),
        Err(TreeFault::Clash) => Ok(()),
        Err(TreeFault::Full) => Err(TreeRead::TooLarge),
        Err(TreeFault::NoMemory) => Err(TreeRead::NoMemory),
    }
}

// Looks up the path of a soname, if the tree has no node there. If it is a link, puts it into the tree.
#[tactic(auto, using(crate::proofs::Added::was_there, crate::proofs::Added::no_link, crate::proofs::Added::one_link))]
fn add_soname<F: Folder>(
    alloc: Global,
    looked: &mut LookedPart,
    folder: &mut F,
    path: &[u8],
    tree: &mut Tree,
) -> Result<(), TreeRead>
    ensures adds { OnOk result (AddsSonames (path.now ∷ []) [] (F.state folder.old) (F.state folder.new) looked.old looked.new tree.old tree.new) }
    ensures reads { ReadsOn result (F.state folder.old) (F.state folder.new) }
{
    tree.know();
    if tree.node(path).is_some() {
        return Ok(());
    }
    looked.see(folder, path)?;
    looked.tree().know();
    let Some(target) = link_at(looked.tree(), path) else {
        return Ok(());
    };
    put_link(tree, path, target.copy(alloc)?)
}

// The same in a search directory, unless it is a `glibc-hwcaps` subdirectory.
#[tactic(auto, using(crate::proofs::Added::begins))]
fn add_in_place<F: Folder>(
    alloc: Global,
    looked: &mut LookedPart,
    folder: &mut F,
    place: &Place,
    soname: &[u8],
    tree: &mut Tree,
) -> Result<(), TreeRead>
    ensures adds { OnOk result (AddsSonames (path_in soname.now place.now) [] (F.state folder.old) (F.state folder.new) looked.old looked.new tree.old tree.new) }
    ensures reads { ReadsOn result (F.state folder.old) (F.state folder.new) }
{
    if !has_no_cap(place) {
        return Ok(());
    }
    let path = join(alloc, place.real.as_bytes(), soname)?;
    add_soname(alloc, looked, folder, path.as_bytes(), tree)
}

// The same in each of these search directories.
#[tactic(auto, using(crate::proofs::Added::begins))]
fn add_in_places<F: Folder>(
    alloc: Global,
    looked: &mut LookedPart,
    folder: &mut F,
    places: &[Place],
    soname: &[u8],
    tree: &mut Tree,
) -> Result<(), TreeRead>
    ensures adds { OnOk result (AddsSonames (paths_in places.now soname.now) [] (F.state folder.old) (F.state folder.new) looked.old looked.new tree.old tree.new) }
    ensures reads { ReadsOn result (F.state folder.old) (F.state folder.new) }
{
    for place in places {
        add_in_place(alloc, looked, folder, place, soname, tree)?;
    }
    Ok(())
}

// The same for each of these sonames.
#[tactic(auto, using(crate::proofs::Added::begins))]
fn add_each<F: Folder>(
    alloc: Global,
    looked: &mut LookedPart,
    folder: &mut F,
    places: &[Place],
    sonames: &[Text],
    tree: &mut Tree,
) -> Result<(), TreeRead>
    ensures adds { OnOk result (AddsSonames (flat_map (paths_in places.now) sonames.now) [] (F.state folder.old) (F.state folder.new) looked.old looked.new tree.old tree.new) }
    ensures reads { ReadsOn result (F.state folder.old) (F.state folder.new) }
{
    for soname in sonames {
        add_in_places(alloc, looked, folder, places, soname.as_bytes(), tree)?;
    }
    Ok(())
}

/// Looks up the sonames in a table that aren't library names, in each search directory. Puts the links that are found into the tree.
pub(crate) fn add_sonames<F: Folder>(
    alloc: Global,
    folder: &mut F,
    dirs: &Dirs,
    table: &Table,
    tree: &mut Tree,
) -> Result<(), TreeRead>
    ensures adds { OnOk result (AddsTree (odd_paths dirs.now.places table.now) (F.state folder.old) (F.state folder.new) tree.old tree.new) }
    ensures reads { ReadsOn result (F.state folder.old) (F.state folder.new) }
{
    let sonames = odd_sonames(alloc, table)?;
    let mut looked = LookedPart::new(alloc);
    let places = dirs.places.as_slice();
    add_each(alloc, &mut looked, folder, places, &sonames, tree)
}
