//! The files of the search directories that are examined.
ghost use Rattle.std.specs.Option.{option_copied};
ghost use Rattle.std.specs.List.{filter_map, flat_map};
ghost use Rattle.std.specs.Prelude.{◌≡◌, ◌++◌, IfOk, OnOk};
ghost use Rattle.image_tree.specs.Tree.{listing_of};
ghost use Rattle.library_files.specs.Children.{found_of};
ghost use Rattle.library_files.specs.FoundFile.{paths_of, AreFilesOf};
ghost use Rattle.library_files.specs.Search.{wanted};

use crate::found::{FoundFile, file_with, in_order};
use crate::reals::{real_folders, texts_of};
use hwcap_dirs::Dirs;
use lib_types::{NoMemory, Text, Texts};
use name_order::is_library_name;
use path_walk::join;
use std::alloc::Global;
use string_pool::ascending;
use tree_face::{Node, Tree};

// The file of a child with this node, if the child is a file with a library name.
fn found_of<'a>(
    alloc: Global,
    folder: &[u8],
    name: &[u8],
    node: Option<&'a Node>,
) -> Result<Option<FoundFile<'a>>, NoMemory>
    ensures { IfOk result (λ file. file ≡ found_of folder.now (name.now, option_copied node.entry)) }
{
    match node {
        Some(Node::File { .. }) if is_library_name(name) => {
            Ok(file_with(join(alloc, folder, name)?, node))
        }
        _ => Ok(None),
    }
}

// Adds the files with library names in a directory.
fn add_files<'a>(
    alloc: Global,
    tree: &'a Tree,
    folder: &[u8],
    files: &mut Vec<FoundFile<'a>>,
) -> Result<(), NoMemory>
    ensures { OnOk result (files.new.items ≡ files.old.items ++ filter_map (found_of folder.now) (listing_of tree.now folder.now)) }
{
    for (name, node) in tree.listing(folder) {
        if let Some(file) = found_of(alloc, folder, name, node)? {
            files.push(file)?;
        }
    }
    Ok(())
}

// The files with library names in these directories.
fn files_of<'a>(
    alloc: Global,
    tree: &'a Tree,
    folders: &[Text],
) -> Result<Vec<FoundFile<'a>>, NoMemory>
    ensures { IfOk result (λ files. files.items ≡ flat_map (λ folder. filter_map (found_of folder) (listing_of tree.now folder)) folders.now) }
{
    let mut files = Vec::new(alloc);
    for folder in folders {
        add_files(alloc, tree, folder.as_bytes(), &mut files)?;
    }
    Ok(files)
}

/// The files with library names in the search directories, sorted by the bytes of their paths, each once. The directories are
/// visited in the order of their bytes, and each one's files are listed by name, so little is left to sort.
#[tactic(auto, using(crate::proofs::FoundIn::all_wanted))]
pub fn wanted_files<'a>(
    alloc: Global,
    tree: &'a Tree,
    dirs: &Dirs,
) -> Result<Vec<FoundFile<'a>>, NoMemory>
    ensures paths { IfOk result (λ files. paths_of files.items ≡ wanted tree.now dirs.now.places) }
    ensures files { IfOk result (λ files. AreFilesOf tree.now files.items) }
{
    tree.know();
    let reals = real_folders(alloc, dirs)?;
    let folders = ascending(texts_of(alloc, reals.paths)?.into_vec())?;
    let files = files_of(alloc, tree, folders.as_slice())?;
    let sorted = in_order(files)?;
    Ok(sorted)
}

/// The paths of the files with library names in the search directories, sorted by their bytes.
pub fn wanted(alloc: Global, tree: &Tree, dirs: &Dirs) -> Result<Texts, NoMemory>
    ensures { IfOk result (λ paths. paths ≡ wanted tree.now dirs.now.places) }
{
    let files = wanted_files(alloc, tree, dirs)?;
    let mut paths = Texts::new(alloc);
    for file in files {
        paths.push(file.path)?;
    }
    Ok(paths)
}
