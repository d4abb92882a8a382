//! The links with library names in the search directories. Each link is resolved once.
ghost use Rattle.std.specs.Option.{option_copied, option_map};
ghost use Rattle.std.specs.Prelude.{◌≡◌, ◌∷◌, ◌++◌, [], IfOk, List, OnOk, flat_map, map};
ghost use Rattle.hwcap_dirs.specs.declared.kinds.Place.{Place};
ghost use Rattle.image_tree.specs.Tree.{Nodes};
ghost use Rattle.library_files.specs.Children.{IsChild};
ghost use Rattle.library_files.specs.FoundFile.{paths_of, AreFilesOf};
ghost use Rattle.library_files.specs.Folders.{by_folder, dangling_in_order, dangling_of};
ghost use Rattle.library_files.specs.Led.{link_by};
ghost use Rattle.string_pool.specs.Order.{ascending};
ghost use Rattle.file_table.specs.Analyses.{unread};
ghost use Rattle.library_files.specs.Search.{dangling, followed, followed_by, followed_in, links_at, reached};
ghost use Rattle.file_table.specs.Table.{analysis_at};
ghost use Rattle.library_files.specs.Unread.{unread_file, unread_of};

use crate::followed::{FollowedLink, FollowedLinks};
use crate::found::{FoundFile, files_there};
use crate::reals::real_folders;
use file_table::Table;
use hwcap_dirs::Dirs;
use lib_types::{NoMemory, Seq, Text, Texts};
use name_order::is_library_name;
use path_walk::{join, linked_file};
use std::alloc::Global;
use std::collections::BTreeMap;
use string_pool::{Shared, ascending};
use tree_face::{Node, Tree};

/// The links with library names in a directory, sorted by the bytes of their names.
#[derive(Drop)]
pub struct FolderLinks {
    /// The directory's resolved path.
    pub folder: Text,
    pub links: FollowedLinks,
}

/// The links with library names of each search directory, in the order of the search directories.
pub type PlaceLinks = Shared<FolderLinks>;

// A link's target, and the file that it resolves to, or None.
#[derive(Drop)]
struct Led<'a> {
    target: &'a [u8],
    file: Option<Text>,
}

// The target and file of a child, if the child is a link with a library name.
fn led_by<'a>(
    alloc: Global,
    tree: &Tree,
    folder: &[u8],
    name: &[u8],
    node: Option<&'a Node>,
) -> Result<Option<Led<'a>>, NoMemory>
    requires { IsChild tree.now folder.now (name.now, option_copied node) }
    ensures { IfOk result (λ led. followed_by tree.now folder.now name.now ≡ option_map (link_by name.now) led) }
{
    match node {
        Some(Node::Link { target }) if is_library_name(name) => {
            let target = target.as_bytes();
            let file = linked_file(alloc, tree, folder, target)?;
            Ok(Some(Led { target, file }))
        }
        _ => Ok(None),
    }
}

// Adds a link with this name, target and file.
fn add_link(links: &mut FollowedLinks, name: &[u8], led: Led<'_>) -> Result<(), NoMemory>
    ensures { OnOk result (links.new ≡ links.old ++ link_by name.now led.entry ∷ []) }
{
    match &led.file {
        Some(path) => links.push(name, led.target, Some(path.as_bytes())),
        None => links.push(name, led.target, None),
    }
}

// The links with library names in a directory.
#[tactic(auto, using(crate::proofs::Children::names_listed, crate::proofs::Children::all_children))]
fn followed_in(alloc: Global, tree: &Tree, folder: &[u8]) -> Result<FollowedLinks, NoMemory>
    ensures { IfOk result (λ links. links ≡ followed_in tree.now folder.now) }
{
    let mut links = FollowedLinks::new(alloc);
    for (name, node) in tree.listing(folder) {
        if let Some(led) = led_by(alloc, tree, folder, name, node)? {
            add_link(&mut links, name, led)?;
        }
    }
    links.shrink_to_fit();
    Ok(links)
}

// The links with library names in each of these directories.
fn followed_each(alloc: Global, tree: &Tree, folders: &[Text]) -> Result<Vec<FolderLinks>, NoMemory>
    ensures { IfOk result (λ links. links.items ≡ map (links_at tree.now) folders.now) }
{
    let mut followed = Vec::with_capacity(alloc, folders.len())?;
    for folder in folders {
        followed.push(FolderLinks {
            folder: Text::copy_of(alloc, folder.as_bytes())?,
            links: followed_in(alloc, tree, folder.as_bytes())?,
        })?;
    }
    Ok(followed)
}

/// The links with library names in the search directories, each with the file that it resolves to. If several search
/// directories resolve to the same directory, it is listed once.
#[tactic(auto, using(crate::proofs::FolderRows::links_once))]
pub fn follow(alloc: Global, tree: &Tree, dirs: &Dirs) -> Result<PlaceLinks, NoMemory>
    ensures { IfOk result (λ links. links ≡ followed tree.now dirs.now.places) }
{
    let folders = real_folders(alloc, dirs)?;
    let links = followed_each(alloc, tree, folders.paths.as_slice())?;
    Ok(Shared::new(links, folders.rows))
}

// ---- the files that the links resolve to

// The file that a link resolves to, if it has no ELF information.
fn unread_file<'a>(table: &Table, link: &FollowedLink<'a>) -> Option<&'a [u8]>
    ensures { option_copied result ≡ unread_file (analysis_at table.now) link.now }
{
    let file = link.file?;
    if table.get(file).is_some() {
        return None;
    }
    Some(file)
}

// Adds the files that these links resolve to and that have no ELF information.
fn add_unread(
    alloc: Global,
    folder: &FolderLinks,
    table: &Table,
    paths: &mut Vec<Text>,
) -> Result<(), NoMemory>
    ensures { OnOk result (paths.new.items ≡ paths.old.items ++ unread_of (analysis_at table.now) folder.now) }
{
    for link in folder.links.iter() {
        if let Some(file) = unread_file(table, &link) {
            paths.push(Text::copy_of(alloc, file)?)?;
        }
    }
    Ok(())
}

// These files for all directories, sorted by their bytes, each once.
fn unread_in(alloc: Global, folders: &[FolderLinks], table: &Table) -> Result<Texts, NoMemory>
    ensures { IfOk result (λ paths. paths ≡ ascending (flat_map (unread_of (analysis_at table.now)) folders.now)) }
{
    let mut paths = Vec::new(alloc);
    for folder in folders {
        add_unread(alloc, folder, table, &mut paths)?;
    }
    ascending(paths)
}

/// The resolved paths of the files that the links resolve to and that have no ELF information. They are sorted by their
/// bytes, each once. Most links resolve to files that were read before, so few paths are copied and sorted.
fn unread_after(alloc: Global, links: &PlaceLinks, table: &Table) -> Result<Texts, NoMemory>
    ensures { (t : Nodes) (places : List Place) → links.now ≡ followed t places → IfOk result (λ paths. paths ≡ unread (analysis_at table.now) (reached t places)) }
{
    let paths = unread_in(alloc, links.each_once(), table)?;
    Ok(paths)
}

/// The same files, each with its key and identity.
#[tactic(auto, using(crate::proofs::FoundIn::all_reached))]
pub fn unread_files<'a>(
    alloc: Global,
    tree: &'a Tree,
    dirs: &Dirs,
    links: &PlaceLinks,
    table: &Table,
) -> Result<Vec<FoundFile<'a>>, NoMemory>
    requires { links.now ≡ followed tree.now dirs.now.places }
    ensures paths { IfOk result (λ files. paths_of files.items ≡ unread (analysis_at table.now) (reached tree.now dirs.now.places)) }
    ensures files { IfOk result (λ files. AreFilesOf tree.now files.items) }
{
    tree.know();
    let paths = unread_after(alloc, links, table)?;
    let files = files_there(alloc, tree, paths)?;
    Ok(files)
}

/// The resolved paths of the files that links with library names in the search directories resolve to, sorted by their
/// bytes, each once.
#[tactic(auto, using(file_table::proofs::Unread::none_read))]
pub fn reached(alloc: Global, tree: &Tree, dirs: &Dirs) -> Result<Texts, NoMemory>
    ensures { IfOk result (λ paths. paths ≡ reached tree.now dirs.now.places) }
{
    let links = follow(alloc, tree, dirs)?;
    unread_after(alloc, &links, &Table::new(alloc))
}

// The paths of the dangling links of a directory: links that don't resolve to a file.
fn dangling_of(alloc: Global, folder: &FolderLinks) -> Result<Texts, NoMemory>
    ensures { IfOk result (λ paths. paths ≡ dangling_of folder.now) }
{
    let mut paths = Seq::new(alloc);
    for link in folder.links.iter() {
        if link.file.is_none() {
            paths.push(join(alloc, folder.folder.as_bytes(), link.name)?)?;
        }
    }
    Ok(paths)
}

// The dangling links of all directories, grouped by directory.
fn by_folder(alloc: Global, folders: &[FolderLinks]) -> Result<BTreeMap<Text, Texts>, NoMemory>
    ensures { IfOk result (λ found. found.entries ≡ by_folder folders.now) }
{
    let mut found = BTreeMap::new(alloc);
    for folder in folders {
        let path = Text::copy_of(alloc, folder.folder.as_bytes())?;
        found.insert(path, dangling_of(alloc, folder)?)?;
    }
    Ok(found)
}

// Adds these texts.
fn append(all: &mut Texts, texts: Texts) -> Result<(), NoMemory>
    ensures { OnOk result (all.new ≡ all.old ++ texts) }
{
    for text in texts.into_vec() {
        all.push(text)?;
    }
    Ok(())
}

// The dangling links of all directories, in the order of the directories' bytes.
fn dangling_in_order(alloc: Global, folders: &[FolderLinks]) -> Result<Texts, NoMemory>
    ensures { IfOk result (λ paths. paths ≡ dangling_in_order folders.now) }
{
    let mut paths = Seq::new(alloc);
    for found in by_folder(alloc, folders)?.into_values() {
        append(&mut paths, found)?;
    }
    Ok(paths)
}

/// The paths of those of these links that don't resolve to a file. Each path is the directory's resolved path and the link's
/// name. The paths are sorted by the bytes of the directory's path, then of the name, each once.
pub fn dangling_among(alloc: Global, links: &PlaceLinks) -> Result<Texts, NoMemory>
    ensures { (t : Nodes) (places : List Place) → links.now ≡ followed t places → IfOk result (λ paths. paths ≡ dangling t places) }
{
    let paths = dangling_in_order(alloc, links.each_once())?;
    Ok(paths)
}

/// The links with library names in the search directories that don't resolve to a file. Resolves all links itself.
pub fn dangling(alloc: Global, tree: &Tree, dirs: &Dirs) -> Result<Texts, NoMemory>
    ensures { IfOk result (λ paths. paths ≡ dangling tree.now dirs.now.places) }
{
    let links = follow(alloc, tree, dirs)?;
    dangling_among(alloc, &links)
}
